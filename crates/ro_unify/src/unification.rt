//! Unification of pairs of words.
ghost use Rattle.std.specs.Prelude.{◌≡◌, ◌+◌, ◌-◌, ◌<◌, ◌≤◌, ◌++◌, ℕ, IfOk, OnOk, [], ◌∷◌, None, false, nat_eq, nat_lt};
ghost use Rattle.heap_words.specs.Cells.{encoded, decoded};
ghost use Rattle.heap_words.specs.Trails.{Holds, KeepsLoads, Says, word_at};
ghost use Rattle.ro_unify.specs.Value.{look_word, IsOpen, Values};
ghost use Rattle.ro_unify.specs.Walks.{Tame, Walked, IsSeen, seen_memory};
ghost use Rattle.ro_unify.specs.Occurs.{stack, Each};
ghost use Rattle.ro_unify.specs.Alike.{Both};
ghost use Rattle.ro_unify.specs.Table.{older_of};
ghost use Rattle.ro_unify.specs.Unify.{Acts, Turned, Ready, Unifies, Does, ending, look_reads, binding, ordered, checked};

use crate::alike::{both, push_alike};
use crate::look::{Look, deref};
use crate::occurrence::occurs;
use crate::table::{Move, move_of};
use fcp_model::NoMemory;
use heap_words::{Cell, Trail, Words, encode};
use std::alloc::Global;

/// Addresses from here on are those of a try's own pieces.
const OWN: u32 = 4_000_000_000;

/// The work lists of unifications. They keep their memory between calls, so a call takes none where an earlier one had as much to
/// do.
#[derive(Drop)]
pub struct WorkLists {
    pairs: Vec<(u64, u64)>,
    walk: Vec<u64>,
}

impl WorkLists {
    /// Lists that took no memory yet.
    pub fn make(alloc: Global) -> WorkLists {
        WorkLists {
            pairs: Vec::new(alloc),
            walk: Vec::new(alloc),
        }
    }
}

/// How a unification ends: all pairs were treated, or one was the first that clashes or waits.
#[derive(Clone, Copy, Debug, PartialEq, Eq)]
pub enum Unified {
    Done,
    Clash,
    Wait,
}

/// The address of a place's name, which stands before its word.
fn name_of(place: u32) -> u32
    ensures { result ≡ place - 1 }
{
    place.saturating_sub(1)
}

/// Whether store place p is older than store place q, by their names.
fn is_older_name<W: Words>(
    trail: &mut Trail,
    words: &mut W,
    p: u32,
    q: u32,
) -> Result<bool, NoMemory>
    requires sound { W.sound words.old }
    requires holds { Holds W.had W.leads trail.old.kept trail.old.binds words.old }
    requires leads { (W.leads words.old (encoded (Cell.Ref p))) × (W.leads words.old (encoded (Cell.Ref q))) }
    ensures between { W.later words.old words.new }
    ensures loaded { OnOk result (KeepsLoads W.sound W.had W.leads W.later W.gave trail.old.kept trail.old.binds words.old
        trail.new.kept trail.new.binds words.new) }
    ensures binds { trail.new.binds ≡ trail.old.binds }
    ensures reads { trail.new.reads.items ≡ trail.old.reads.items }
    ensures older { IfOk result (λ b. Says (W.own words.new) trail.new.kept (λ m. nat_lt (m (p - 1)) (m (q - 1)) ≡ b)) }
{
    let names = both(trail, words, name_of(p), name_of(q))?;
    Ok(names.0 < names.1)
}

/// Whether place p is older than q: a try's own places are younger than all others, and among them the one at the greater address
/// is the younger. Names are loaded for two places of the store alone.
fn is_older_place<W: Words>(
    trail: &mut Trail,
    words: &mut W,
    p: u32,
    q: u32,
) -> Result<bool, NoMemory>
    requires sound { W.sound words.old }
    requires holds { Holds W.had W.leads trail.old.kept trail.old.binds words.old }
    requires leads { (W.leads words.old (encoded (Cell.Ref p))) × (W.leads words.old (encoded (Cell.Ref q))) }
    ensures between { W.later words.old words.new }
    ensures loaded { OnOk result (KeepsLoads W.sound W.had W.leads W.later W.gave trail.old.kept trail.old.binds words.old
        trail.new.kept trail.new.binds words.new) }
    ensures binds { trail.new.binds ≡ trail.old.binds }
    ensures reads { trail.new.reads.items ≡ trail.old.reads.items }
    ensures older { IfOk result (λ b. Says (W.own words.new) trail.new.kept (λ m. older_of p q (m (p - 1)) (m (q - 1)) ≡ b)) }
{
    if p >= OWN {
        return Ok(if q < OWN { false } else { p < q });
    }
    if q >= OWN {
        return Ok(true);
    }
    is_older_name(trail, words, p, q)
}

/// Binds a free place to a word.
fn bind_word<W: Words>(trail: &mut Trail, words: &W, at: u32, word: u64) -> Result<(), NoMemory>
    requires sound { W.sound words.now }
    requires holds { Holds W.had W.leads trail.old.kept trail.old.binds words.now }
    requires leads { W.leads words.now word }
    requires free { word_at trail.old.binds at ≡ None }
    requires tame { Tame trail.old.binds trail.old.kept (W.own words.now) (W.addresses words.now) }
    requires seen { IsSeen trail.old.kept (W.own words.now) at }
    requires walked { Walked trail.old.binds trail.old.kept (W.own words.now) at word }
    ensures loaded { OnOk result (KeepsLoads W.sound W.had W.leads W.later W.gave trail.old.kept trail.old.binds words.now trail.new.kept
        trail.new.binds words.now) }
    ensures binds { OnOk result (trail.new.binds ≡ trail.old.binds ++ binding at word ∷ []) }
    ensures reads { trail.new.reads.items ≡ trail.old.reads.items }
    ensures kept { trail.new.kept ≡ trail.old.kept }
    ensures tame { OnOk result (Tame trail.new.binds trail.new.kept (W.own words.now) (W.addresses words.now)) }
{
    trail.bind(at, word)?;
    Ok(())
}

/// Binds the younger of two places to the older one.
fn order<W: Words>(trail: &mut Trail, words: &mut W, p: u32, q: u32) -> Result<(), NoMemory>
    requires sound { W.sound words.old }
    requires holds { Holds W.had W.leads trail.old.kept trail.old.binds words.old }
    requires leads { (W.leads words.old (encoded (Cell.Ref p))) × (W.leads words.old (encoded (Cell.Ref q))) }
    requires unbound { IsOpen trail.old.binds (seen_memory trail.old.kept (W.own words.old)) p
        × IsOpen trail.old.binds (seen_memory trail.old.kept (W.own words.old)) q }
    requires differ { nat_eq p q ≡ false }
    requires tame { Tame trail.old.binds trail.old.kept (W.own words.old) (W.addresses words.old) }
    ensures between { W.later words.old words.new }
    ensures loaded { OnOk result (KeepsLoads W.sound W.had W.leads W.later W.gave trail.old.kept trail.old.binds words.old
        trail.new.kept trail.new.binds words.new) }
    ensures reads { trail.new.reads.items ≡ trail.old.reads.items }
    ensures binds { OnOk result (Says (W.own words.new) trail.new.kept
        (λ m. trail.new.binds ≡ trail.old.binds ++ ordered p q (older_of p q (m (p - 1)) (m (q - 1))) ∷ [])) }
    ensures tame { OnOk result (Tame trail.new.binds trail.new.kept (W.own words.new) (W.addresses words.new)) }
{
    if is_older_place(trail, words, p, q)? {
        bind_word(trail, words, q, encode(Cell::Ref(p)))?;
        Ok(())
    } else {
        bind_word(trail, words, p, encode(Cell::Ref(q)))?;
        Ok(())
    }
}

/// Binds a place to a word in which it does not occur.
fn check<W: Words>(
    walk: &mut Vec<u64>,
    trail: &mut Trail,
    words: &mut W,
    at: u32,
    word: u64,
) -> Result<bool, NoMemory>
    requires sound { W.sound words.old }
    requires holds { Holds W.had W.leads trail.old.kept trail.old.binds words.old }
    requires leads { W.leads words.old word }
    requires unbound { IsOpen trail.old.binds (seen_memory trail.old.kept (W.own words.old)) at }
    requires tame { Tame trail.old.binds trail.old.kept (W.own words.old) (W.addresses words.old) }
    ensures between { W.later words.old words.new }
    ensures loaded { OnOk result (KeepsLoads W.sound W.had W.leads W.later W.gave trail.old.kept trail.old.binds words.old
        trail.new.kept trail.new.binds words.new) }
    ensures does { IfOk result (λ b. Says (W.own words.new) trail.new.kept
        (λ m. Does trail.old.binds m trail.old.reads.items (Move.Check at word) (checked b trail.new.binds) trail.new.reads.items)) }
    ensures tame { OnOk result (Tame trail.new.binds trail.new.kept (W.own words.new) (W.addresses words.new)) }
{
    if occurs(walk, trail, words, at, word)? {
        Ok(false)
    } else {
        bind_word(trail, words, at, word)?;
        Ok(true)
    }
}

/// Makes a move.
fn turn<W: Words>(
    walk: &mut Vec<u64>,
    trail: &mut Trail,
    words: &mut W,
    work: &mut Vec<(u64, u64)>,
    step: Move,
) -> Result<Unified, NoMemory>
    requires sound { W.sound words.old }
    requires holds { Holds W.had W.leads trail.old.kept trail.old.binds words.old }
    requires ready { Ready (W.leads words.old) trail.old.binds (seen_memory trail.old.kept (W.own words.old)) step }
    requires tame { Tame trail.old.binds trail.old.kept (W.own words.old) (W.addresses words.old) }
    ensures between { W.later words.old words.new }
    ensures loaded { OnOk result (KeepsLoads W.sound W.had W.leads W.later W.gave trail.old.kept trail.old.binds words.old
        trail.new.kept trail.new.binds words.new) }
    ensures acts { IfOk result (λ d. Says (W.own words.new) trail.new.kept
        (λ m. Acts m trail.old.binds trail.old.reads.items step (stack work.old.items) trail.new.binds trail.new.reads.items
        (stack work.new.items) d)) }
    ensures leads { OnOk result (Each (Both (W.leads words.old)) (stack work.old.items)
        → Each (Both (W.leads words.new)) (stack work.new.items)) }
    ensures tame { OnOk result (Tame trail.new.binds trail.new.kept (W.own words.new) (W.addresses words.new)) }
{
    match step {
        Move::Nothing => Ok(Unified::Done),
        Move::Wait => Ok(Unified::Wait),
        Move::Order(p, q) => {
            order(trail, words, p, q)?;
            Ok(Unified::Done)
        }
        Move::Bind(p, q) => {
            bind_word(trail, words, p, encode(Cell::RoRef(q)))?;
            Ok(Unified::Done)
        }
        Move::Check(p, word) => {
            if check(walk, trail, words, p, word)? {
                Ok(Unified::Done)
            } else {
                Ok(Unified::Clash)
            }
        }
        Move::Solids(left, right) => {
            if push_alike(trail, words, work, left, right)? {
                Ok(Unified::Done)
            } else {
                Ok(Unified::Clash)
            }
        }
    }
}

/// Notes the place of an unbound value.
pub fn note_look(trail: &mut Trail, look: Look) -> Result<(), NoMemory>
    ensures binds { trail.new.binds ≡ trail.old.binds }
    ensures kept { trail.new.kept ≡ trail.old.kept }
    ensures reads { OnOk result (trail.new.reads.items ≡ trail.old.reads.items ++ look_reads look) }
{
    match look {
        Look::Writable(at) => {
            trail.note_read(at)?;
            Ok(())
        }
        Look::ReadOnly(at) => {
            trail.note_read(at)?;
            Ok(())
        }
        Look::Solid(_) => Ok(()),
    }
}

/// The values of two words, whose unbound places are noted as read.
pub fn two_values<W: Words>(
    trail: &mut Trail,
    words: &mut W,
    left: u64,
    right: u64,
) -> Result<(Look, Look), NoMemory>
    requires sound { W.sound words.old }
    requires holds { Holds W.had W.leads trail.old.kept trail.old.binds words.old }
    requires leads { (W.leads words.old left) × (W.leads words.old right) }
    requires tame { Tame trail.old.binds trail.old.kept (W.own words.old) (W.addresses words.old) }
    ensures between { W.later words.old words.new }
    ensures loaded { OnOk result (KeepsLoads W.sound W.had W.leads W.later W.gave trail.old.kept trail.old.binds words.old
        trail.new.kept trail.new.binds words.new) }
    ensures binds { trail.new.binds ≡ trail.old.binds }
    ensures reads { IfOk result (λ r. trail.new.reads.items ≡ (trail.old.reads.items ++ look_reads r.0) ++ look_reads r.1) }
    ensures left { IfOk result (λ r. Says (W.own words.new) trail.new.kept (λ m. Values trail.old.binds m false left r.0)) }
    ensures right { IfOk result (λ r. Says (W.own words.new) trail.new.kept (λ m. Values trail.old.binds m false right r.1)) }
    ensures lead { IfOk result (λ r. W.leads words.new (look_word r.0) × W.leads words.new (look_word r.1)) }
{
    let one = deref(trail, words, left)?;
    let two = deref(trail, words, right)?;
    note_look(trail, one)?;
    note_look(trail, two)?;
    Ok((one, two))
}

/// Treats a pair of words.
fn treat<W: Words>(
    walk: &mut Vec<u64>,
    trail: &mut Trail,
    words: &mut W,
    work: &mut Vec<(u64, u64)>,
    left: u64,
    right: u64,
) -> Result<Unified, NoMemory>
    requires sound { W.sound words.old }
    requires holds { Holds W.had W.leads trail.old.kept trail.old.binds words.old }
    requires leads { (W.leads words.old left) × (W.leads words.old right) }
    requires tame { Tame trail.old.binds trail.old.kept (W.own words.old) (W.addresses words.old) }
    ensures between { W.later words.old words.new }
    ensures loaded { OnOk result (KeepsLoads W.sound W.had W.leads W.later W.gave trail.old.kept trail.old.binds words.old
        trail.new.kept trail.new.binds words.new) }
    ensures turned { IfOk result (λ d. Says (W.own words.new) trail.new.kept
        (λ m. Turned m trail.old.binds trail.old.reads.items (left, right) (stack work.old.items) trail.new.binds trail.new.reads.items
        (stack work.new.items) d)) }
    ensures lead { OnOk result (Each (Both (W.leads words.old)) (stack work.old.items)
        → Each (Both (W.leads words.new)) (stack work.new.items)) }
    ensures tame { OnOk result (Tame trail.new.binds trail.new.kept (W.own words.new) (W.addresses words.new)) }
{
    let values = two_values(trail, words, left, right)?;
    let step = move_of(values.0, values.1);
    let done = turn(walk, trail, words, work, step)?;
    Ok(done)
}

/// Puts the pairs on an empty work list, the first one on top.
fn put_pairs(work: &mut Vec<(u64, u64)>, pairs: &[(u64, u64)]) -> Result<(), NoMemory>
    ensures { OnOk result (stack work.new.items ≡ pairs.now) }
{
    work.clear();
    match work.extend(pairs.iter().rev().copied()) {
        Ok(()) => Ok(()),
        Err(_) => Err(NoMemory),
    }
}

/// Unifies the pairs of a work list from its top.
fn unify_all<W: Words>(
    walk: &mut Vec<u64>,
    trail: &mut Trail,
    words: &mut W,
    work: &mut Vec<(u64, u64)>,
) -> Result<Unified, NoMemory>
    requires sound { W.sound words.old }
    requires holds { Holds W.had W.leads trail.old.kept trail.old.binds words.old }
    requires leads { Each (Both (W.leads words.old)) (stack work.old.items) }
    requires tame { Tame trail.old.binds trail.old.kept (W.own words.old) (W.addresses words.old) }
    ensures between { W.later words.old words.new }
    ensures loaded { OnOk result (KeepsLoads W.sound W.had W.leads W.later W.gave trail.old.kept trail.old.binds words.old
        trail.new.kept trail.new.binds words.new) }
    ensures unifies { IfOk result (λ d. Says (W.own words.new) trail.new.kept
        (λ m. Unifies m trail.old.binds trail.old.reads.items (stack work.old.items) (ending d trail.new.binds trail.new.reads.items))) }
    ensures tame { OnOk result (Tame trail.new.binds trail.new.kept (W.own words.new) (W.addresses words.new)) }
{
    'pairs: loop {
        let Some(pair) = work.pop() else {
            return Ok(Unified::Done);
        };
        match treat(walk, trail, words, work, pair.0, pair.1)? {
            Unified::Done => {}
            Unified::Clash => return Ok(Unified::Clash),
            Unified::Wait => return Ok(Unified::Wait),
        }
    }
}

/// Unifies pairs of words from the left, depth first, under the private bindings of the trail: new ones go last on its list, and so
/// does each place that was read unbound. After `NoMemory` the trail is only good for `clear`.
pub fn unify<W: Words>(
    lists: &mut WorkLists,
    trail: &mut Trail,
    words: &mut W,
    pairs: &[(u64, u64)],
) -> Result<Unified, NoMemory>
    requires sound { W.sound words.old }
    requires holds { Holds W.had W.leads trail.old.kept trail.old.binds words.old }
    requires leads { Each (Both (W.leads words.old)) pairs.now }
    requires tame { Tame trail.old.binds trail.old.kept (W.own words.old) (W.addresses words.old) }
    ensures between { W.later words.old words.new }
    ensures loaded { OnOk result (KeepsLoads W.sound W.had W.leads W.later W.gave trail.old.kept trail.old.binds words.old
        trail.new.kept trail.new.binds words.new) }
    ensures unifies { IfOk result (λ d. Says (W.own words.new) trail.new.kept
        (λ m. Unifies m trail.old.binds trail.old.reads.items pairs.now (ending d trail.new.binds trail.new.reads.items))) }
    ensures tame { OnOk result (Tame trail.new.binds trail.new.kept (W.own words.new) (W.addresses words.new)) }
{
    put_pairs(&mut lists.pairs, pairs)?;
    unify_all(&mut lists.walk, trail, words, &mut lists.pairs)
}
