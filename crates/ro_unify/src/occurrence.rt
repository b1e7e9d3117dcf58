//! The parts of words, and the occurs check.
ghost use Rattle.std.specs.Prelude.{◌≡◌, ◌+◌, ◌<◌, ◌≤◌, ◌++◌, ℕ, IfOk, OnOk, [], ◌∷◌, false};
ghost use Rattle.heap_words.specs.Cells.{encoded, decoded};
ghost use Rattle.heap_words.specs.Trails.{Holds, KeepsLoads, Says};
ghost use Rattle.ro_unify.specs.Value.{look_word, IsOpen};
ghost use Rattle.ro_unify.specs.Walks.{Tame, Walked, IsSeen, PartsSeen, LookSeen, seen_memory};
ghost use Rattle.ro_unify.specs.Occurs.{open_of, whole_of, count_of, stack, words_after, parts_of, Each, Occurs, found_as, Visits, is_leaf};

use crate::look::{Look, deref};
use fcp_model::NoMemory;
use heap_words::{Cell, Trail, Words, decode};

/// What a word is that is no reference to a place: something without parts, or a pair or a tuple with the address of its words.
#[derive(Clone, Copy, Debug, PartialEq, Eq)]
pub enum Whole {
    Atom,
    Pair(u32),
    Tuple(u32),
}

/// What a word is, by its cell.
pub(crate) fn whole_in(word: u64) -> Whole
    ensures { result ≡ whole_of (decoded word) }
{
    match decode(word) {
        Some(Cell::Cons(at)) => Whole::Pair(at),
        Some(Cell::Tuple(at)) => Whole::Tuple(at),
        _ => Whole::Atom,
    }
}

/// How many parts come after a word that says their number; 0 after any other word.
pub(crate) fn count_in(word: u64) -> u32
    ensures { result ≡ count_of (decoded word) }
{
    match decode(word) {
        Some(Cell::Raw(count)) => if count < 66 { count } else { 2 },
        _ => 0,
    }
}

/// Puts a word on top of the work list.
fn push(work: &mut Vec<u64>, word: u64) -> Result<(), NoMemory>
    ensures { OnOk result (work.new.items ≡ work.old.items ++ word ∷ []) }
{
    match work.push(word) {
        Ok(()) => Ok(()),
        Err(_) => Err(NoMemory),
    }
}

/// Puts the words after an address on the work list, the first one on top.
fn push_after<W: Words>(
    trail: &mut Trail,
    words: &mut W,
    work: &mut Vec<u64>,
    at: u32,
    count: u32,
) -> Result<(), NoMemory>
    requires sound { W.sound words.old }
    requires holds { Holds W.had W.leads trail.old.kept trail.old.binds words.old }
    requires known { (b : ℕ) → at < b → b ≤ at + count → W.knows words.old b }
    ensures between { W.later words.old words.new }
    ensures loaded { OnOk result (KeepsLoads W.sound W.had W.leads W.later W.gave trail.old.kept trail.old.binds words.old
        trail.new.kept trail.new.binds words.new) }
    ensures binds { trail.new.binds ≡ trail.old.binds }
    ensures reads { trail.new.reads.items ≡ trail.old.reads.items }
    ensures seen { OnOk result ((b : ℕ) → at < b → b ≤ at + count → IsSeen trail.new.kept (W.own words.new) b) }
    ensures work { OnOk result (Says (W.own words.new) trail.new.kept
        (λ m. stack work.new.items ≡ words_after m at count ++ stack work.old.items)) }
    ensures leads { OnOk result (Each (W.leads words.old) (stack work.old.items) → Each (W.leads words.new) (stack work.new.items)) }
{
    let mut left = count;
    while left > 0 {
        let word = trail.word(words, at + left)?;
        push(work, word)?;
        left -= 1;
    }
    Ok(())
}

/// Puts the two words of a pair on the work list, the first one on top.
fn push_pair<W: Words>(
    trail: &mut Trail,
    words: &mut W,
    work: &mut Vec<u64>,
    at: u32,
) -> Result<(), NoMemory>
    requires sound { W.sound words.old }
    requires holds { Holds W.had W.leads trail.old.kept trail.old.binds words.old }
    requires known { (W.knows words.old at) × (W.knows words.old (at + 1)) }
    ensures between { W.later words.old words.new }
    ensures loaded { OnOk result (KeepsLoads W.sound W.had W.leads W.later W.gave trail.old.kept trail.old.binds words.old
        trail.new.kept trail.new.binds words.new) }
    ensures binds { trail.new.binds ≡ trail.old.binds }
    ensures reads { trail.new.reads.items ≡ trail.old.reads.items }
    ensures seen { OnOk result (IsSeen trail.new.kept (W.own words.new) at × IsSeen trail.new.kept (W.own words.new) (at + 1)) }
    ensures work { OnOk result (Says (W.own words.new) trail.new.kept
        (λ m. stack work.new.items ≡ m at ∷ m (at + 1) ∷ stack work.old.items)) }
    ensures leads { OnOk result (Each (W.leads words.old) (stack work.old.items) → Each (W.leads words.new) (stack work.new.items)) }
{
    let second = trail.word(words, at + 1)?;
    push(work, second)?;
    let first = trail.word(words, at)?;
    push(work, first)?;
    Ok(())
}

/// Puts the parts of a word that is no reference on the work list, the first one on top.
fn push_parts<W: Words>(
    trail: &mut Trail,
    words: &mut W,
    work: &mut Vec<u64>,
    word: u64,
) -> Result<(), NoMemory>
    requires sound { W.sound words.old }
    requires holds { Holds W.had W.leads trail.old.kept trail.old.binds words.old }
    requires leads { W.leads words.old word }
    ensures between { W.later words.old words.new }
    ensures loaded { OnOk result (KeepsLoads W.sound W.had W.leads W.later W.gave trail.old.kept trail.old.binds words.old
        trail.new.kept trail.new.binds words.new) }
    ensures binds { trail.new.binds ≡ trail.old.binds }
    ensures reads { trail.new.reads.items ≡ trail.old.reads.items }
    ensures seen { OnOk result (PartsSeen trail.new.kept (W.own words.new) (whole_of (decoded word))) }
    ensures work { OnOk result (Says (W.own words.new) trail.new.kept
        (λ m. stack work.new.items ≡ parts_of m (whole_of (decoded word)) ++ stack work.old.items)) }
    ensures leads { OnOk result (Each (W.leads words.old) (stack work.old.items) → Each (W.leads words.new) (stack work.new.items)) }
{
    match whole_in(word) {
        Whole::Atom => Ok(()),
        Whole::Pair(at) => {
            push_pair(trail, words, work, at)?;
            Ok(())
        }
        Whole::Tuple(at) => {
            let count = trail.word(words, at)?;
            push_after(trail, words, work, at, count_in(count))?;
            Ok(())
        }
    }
}

/// The value of a word, noted as read where it is an unbound place. The parts of any other come next.
fn visit<W: Words>(
    trail: &mut Trail,
    words: &mut W,
    work: &mut Vec<u64>,
    next: u64,
) -> Result<Look, NoMemory>
    requires sound { W.sound words.old }
    requires holds { Holds W.had W.leads trail.old.kept trail.old.binds words.old }
    requires leads { W.leads words.old next }
    requires tame { Tame trail.old.binds trail.old.kept (W.own words.old) (W.addresses words.old) }
    ensures between { W.later words.old words.new }
    ensures loaded { OnOk result (KeepsLoads W.sound W.had W.leads W.later W.gave trail.old.kept trail.old.binds words.old
        trail.new.kept trail.new.binds words.new) }
    ensures binds { trail.new.binds ≡ trail.old.binds }
    ensures visits { IfOk result (λ v. Says (W.own words.new) trail.new.kept
        (λ m. Visits trail.old.binds m next (stack work.old.items) trail.old.reads.items
        (stack work.new.items) trail.new.reads.items v)) }
    ensures seen { IfOk result (LookSeen trail.new.kept (W.own words.new)) }
    ensures leads { OnOk result (Each (W.leads words.old) (stack work.old.items) → Each (W.leads words.new) (stack work.new.items)) }
{
    let look = deref(trail, words, next)?;
    match look {
        Look::Writable(at) => {
            trail.note_read(at)?;
            Ok(look)
        }
        Look::ReadOnly(at) => {
            trail.note_read(at)?;
            Ok(look)
        }
        Look::Solid(word) => {
            push_parts(trail, words, work, word)?;
            Ok(look)
        }
    }
}

/// Whether a value is this unbound place.
fn is_at(look: Look, place: u32) -> bool
    ensures { result ≡ is_leaf look place }
{
    match look {
        Look::Writable(at) => at == place,
        Look::ReadOnly(at) => at == place,
        Look::Solid(_) => false,
    }
}

/// Whether an unbound place occurs in a word, by value. Each unbound place that is met is noted as read, from the left; the walk
/// ends at the place itself. Where it does not occur, all that is reached from the word was seen.
pub(crate) fn occurs<W: Words>(
    work: &mut Vec<u64>,
    trail: &mut Trail,
    words: &mut W,
    place: u32,
    word: u64,
) -> Result<bool, NoMemory>
    requires sound { W.sound words.old }
    requires holds { Holds W.had W.leads trail.old.kept trail.old.binds words.old }
    requires leads { W.leads words.old word }
    requires tame { Tame trail.old.binds trail.old.kept (W.own words.old) (W.addresses words.old) }
    requires unbound { IsOpen trail.old.binds (seen_memory trail.old.kept (W.own words.old)) place }
    ensures between { W.later words.old words.new }
    ensures loaded { OnOk result (KeepsLoads W.sound W.had W.leads W.later W.gave trail.old.kept trail.old.binds words.old
        trail.new.kept trail.new.binds words.new) }
    ensures binds { trail.new.binds ≡ trail.old.binds }
    ensures found { IfOk result (λ b. Says (W.own words.new) trail.new.kept
        (λ m. Occurs trail.old.binds m place (word ∷ []) trail.old.reads.items (found_as b trail.new.reads.items))) }
    ensures walked { IfOk result (λ b. b ≡ false → Walked trail.new.binds trail.new.kept (W.own words.new) place word) }
{
    work.clear();
    push(work, word)?;
    'walk: loop {
        let Some(next) = work.pop() else {
            return Ok(false);
        };
        let look = visit(trail, words, work, next)?;
        if is_at(look, place) {
            return Ok(true);
        }
    }
}
