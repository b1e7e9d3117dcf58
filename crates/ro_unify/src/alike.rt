//! Two words that are no references: whether they are alike, and the pairs of their parts.
ghost use Rattle.std.specs.Prelude.{◌≡◌, ◌+◌, ◌<◌, ◌≤◌, ◌++◌, ℕ, IfOk, OnOk, [], ◌∷◌};
ghost use Rattle.heap_words.specs.Cells.{decoded};
ghost use Rattle.heap_words.specs.Trails.{Holds, KeepsLoads, Says};
ghost use Rattle.ro_unify.specs.Occurs.{whole_of, count_of, stack, Each};
ghost use Rattle.ro_unify.specs.Alike.{wide_of, same_atoms, pairs_after, alike, before, only_if, Both};

use crate::occurrence::{Whole, count_in, whole_in};
use fcp_model::NoMemory;
use heap_words::{Cell, Trail, Words, decode};

/// Where a wide number has its lower bits, and its upper bits; `None` for any other word.
fn wide_in(word: u64) -> Option<(u32, u8)>
    ensures { result ≡ wide_of (decoded word) }
{
    match decode(word) {
        Some(Cell::Wide(low, high)) => Some((low, high)),
        _ => None,
    }
}

/// The words at two addresses.
pub(crate) fn both<W: Words>(
    trail: &mut Trail,
    words: &mut W,
    at: u32,
    to: u32,
) -> Result<(u64, u64), NoMemory>
    requires sound { W.sound words.old }
    requires holds { Holds W.had W.leads trail.old.kept trail.old.binds words.old }
    requires known { W.knows words.old at }
    requires also { W.knows words.old to }
    ensures between { W.later words.old words.new }
    ensures loaded { OnOk result (KeepsLoads W.sound W.had W.leads W.later W.gave trail.old.kept trail.old.binds words.old
        trail.new.kept trail.new.binds words.new) }
    ensures binds { trail.new.binds ≡ trail.old.binds }
    ensures reads { trail.new.reads.items ≡ trail.old.reads.items }
    ensures one { IfOk result (λ r. Says (W.own words.new) trail.new.kept (λ m. m at ≡ r.0)) }
    ensures two { IfOk result (λ r. Says (W.own words.new) trail.new.kept (λ m. m to ≡ r.1)) }
    ensures had { IfOk result (λ r. (W.had words.new at r.0) × (W.had words.new to r.1)) }
{
    let one = trail.word(words, at)?;
    let two = trail.word(words, to)?;
    Ok((one, two))
}

/// Whether two words without parts are the same. Wide numbers are compared by their bits, not by their addresses.
fn is_same_atom<W: Words>(
    trail: &mut Trail,
    words: &mut W,
    left: u64,
    right: u64,
) -> Result<bool, NoMemory>
    requires sound { W.sound words.old }
    requires holds { Holds W.had W.leads trail.old.kept trail.old.binds words.old }
    requires leads { (W.leads words.old left) × (W.leads words.old right) }
    ensures between { W.later words.old words.new }
    ensures loaded { OnOk result (KeepsLoads W.sound W.had W.leads W.later W.gave trail.old.kept trail.old.binds words.old
        trail.new.kept trail.new.binds words.new) }
    ensures binds { trail.new.binds ≡ trail.old.binds }
    ensures reads { trail.new.reads.items ≡ trail.old.reads.items }
    ensures same { IfOk result (λ b. Says (W.own words.new) trail.new.kept (λ m. same_atoms m left right ≡ b)) }
{
    let Some((low, high)) = wide_in(left) else {
        return Ok(left == right);
    };
    let Some((other, top)) = wide_in(right) else {
        return Ok(left == right);
    };
    let found = both(trail, words, low, other)?;
    Ok(if high == top {
        found.0 == found.1
    } else {
        false
    })
}

/// Puts a pair on top of the work list.
fn push_two(work: &mut Vec<(u64, u64)>, left: u64, right: u64) -> Result<(), NoMemory>
    ensures { OnOk result (work.new.items ≡ work.old.items ++ (left, right) ∷ []) }
{
    match work.push((left, right)) {
        Ok(()) => Ok(()),
        Err(_) => Err(NoMemory),
    }
}

/// Puts the pairs of the words after two addresses on the work list, the first one on top.
fn push_pairs_after<W: Words>(
    trail: &mut Trail,
    words: &mut W,
    work: &mut Vec<(u64, u64)>,
    at: u32,
    to: u32,
    count: u32,
) -> Result<(), NoMemory>
    requires sound { W.sound words.old }
    requires holds { Holds W.had W.leads trail.old.kept trail.old.binds words.old }
    requires known { (b : ℕ) → at < b → b ≤ at + count → W.knows words.old b }
    requires also { (b : ℕ) → to < b → b ≤ to + count → W.knows words.old b }
    ensures between { W.later words.old words.new }
    ensures loaded { OnOk result (KeepsLoads W.sound W.had W.leads W.later W.gave trail.old.kept trail.old.binds words.old
        trail.new.kept trail.new.binds words.new) }
    ensures binds { trail.new.binds ≡ trail.old.binds }
    ensures reads { trail.new.reads.items ≡ trail.old.reads.items }
    ensures work { OnOk result (Says (W.own words.new) trail.new.kept
        (λ m. stack work.new.items ≡ pairs_after m at to count ++ stack work.old.items)) }
    ensures leads { OnOk result (Each (Both (W.leads words.old)) (stack work.old.items)
        → Each (Both (W.leads words.new)) (stack work.new.items)) }
{
    let mut left = count;
    while left > 0 {
        let found = both(trail, words, at + left, to + left)?;
        push_two(work, found.0, found.1)?;
        left -= 1;
    }
    Ok(())
}

/// Puts the pairs of the parts of two words on the work list, where the words are alike.
pub fn push_alike<W: Words>(
    trail: &mut Trail,
    words: &mut W,
    work: &mut Vec<(u64, u64)>,
    left: u64,
    right: u64,
) -> Result<bool, NoMemory>
    requires sound { W.sound words.old }
    requires holds { Holds W.had W.leads trail.old.kept trail.old.binds words.old }
    requires leads { (W.leads words.old left) × (W.leads words.old right) }
    ensures between { W.later words.old words.new }
    ensures loaded { OnOk result (KeepsLoads W.sound W.had W.leads W.later W.gave trail.old.kept trail.old.binds words.old
        trail.new.kept trail.new.binds words.new) }
    ensures binds { trail.new.binds ≡ trail.old.binds }
    ensures reads { trail.new.reads.items ≡ trail.old.reads.items }
    ensures work { IfOk result (λ b. Says (W.own words.new) trail.new.kept
        (λ m. before (alike m left right) (stack work.old.items) ≡ only_if b (stack work.new.items))) }
    ensures leads { OnOk result (Each (Both (W.leads words.old)) (stack work.old.items)
        → Each (Both (W.leads words.new)) (stack work.new.items)) }
{
    match whole_in(left) {
        Whole::Atom => match whole_in(right) {
            Whole::Atom => {
                let same = is_same_atom(trail, words, left, right)?;
                Ok(same)
            }
            Whole::Pair(_) => Ok(false),
            Whole::Tuple(_) => Ok(false),
        },
        Whole::Pair(at) => match whole_in(right) {
            Whole::Pair(to) => {
                push_pair_parts(trail, words, work, at, to)?;
                Ok(true)
            }
            Whole::Atom => Ok(false),
            Whole::Tuple(_) => Ok(false),
        },
        Whole::Tuple(at) => match whole_in(right) {
            Whole::Tuple(to) => {
                let counts = both(trail, words, at, to)?;
                if counts.0 == counts.1 {
                    push_pairs_after(trail, words, work, at, to, count_in(counts.0))?;
                    Ok(true)
                } else {
                    Ok(false)
                }
            }
            Whole::Atom => Ok(false),
            Whole::Pair(_) => Ok(false),
        },
    }
}

/// Puts the pairs of the parts of two pairs on the work list.
fn push_pair_parts<W: Words>(
    trail: &mut Trail,
    words: &mut W,
    work: &mut Vec<(u64, u64)>,
    at: u32,
    to: u32,
) -> Result<(), NoMemory>
    requires sound { W.sound words.old }
    requires holds { Holds W.had W.leads trail.old.kept trail.old.binds words.old }
    requires known { (W.knows words.old at) × (W.knows words.old (at + 1)) }
    requires also { (W.knows words.old to) × (W.knows words.old (to + 1)) }
    ensures between { W.later words.old words.new }
    ensures loaded { OnOk result (KeepsLoads W.sound W.had W.leads W.later W.gave trail.old.kept trail.old.binds words.old
        trail.new.kept trail.new.binds words.new) }
    ensures binds { trail.new.binds ≡ trail.old.binds }
    ensures reads { trail.new.reads.items ≡ trail.old.reads.items }
    ensures work { OnOk result (Says (W.own words.new) trail.new.kept
        (λ m. stack work.new.items ≡ (m at, m to) ∷ (m (at + 1), m (to + 1)) ∷ stack work.old.items)) }
    ensures leads { OnOk result (Each (Both (W.leads words.old)) (stack work.old.items)
        → Each (Both (W.leads words.new)) (stack work.new.items)) }
{
    let second = both(trail, words, at + 1, to + 1)?;
    push_two(work, second.0, second.1)?;
    let first = both(trail, words, at, to)?;
    push_two(work, first.0, first.1)?;
    Ok(())
}
