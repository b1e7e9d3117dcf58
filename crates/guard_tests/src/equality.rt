//! Whether words are equal.
ghost use Rattle.std.specs.Prelude.{◌≡◌, ◌++◌, [], ◌∷◌, ℕ, List, Some, IfOk, OnOk};
ghost use Rattle.heap_words.specs.Trails.{Holds, KeepsLoads, Says};
ghost use Rattle.ro_unify.specs.Alike.{Both};
ghost use Rattle.ro_unify.specs.Occurs.{open_of, stack, Each};
ghost use Rattle.ro_unify.specs.Value.{look_word};
ghost use Rattle.ro_unify.specs.Walks.{Tame};
ghost use Rattle.guard_tests.specs.Equality.{same_place, compared, Leaves, WasCompared, Equals};

use fcp_model::NoMemory;
use heap_words::{Trail, Words};
use ro_unify::{Look, push_alike, two_values};

/// What a test comes to: it holds, it does not, or it waits for a place.
#[derive(Clone, Copy, Debug, PartialEq, Eq)]
pub enum Tested {
    Holds,
    Not,
    Wait,
}

/// The place of an unbound value.
fn place_of(look: Look) -> Option<u32>
    ensures { result ≡ open_of look }
{
    match look {
        Look::Writable(place) => Some(place),
        Look::ReadOnly(place) => Some(place),
        Look::Solid(_) => None,
    }
}

/// Whether an unbound place and another value are one place. No pairs of parts come next.
fn is_place(place: u32, other: Option<u32>) -> Tested
    ensures { (ps : List (ℕ × ℕ)) → Leaves (same_place (Some place) other) ps result ps }
{
    match other {
        Some(other) => if place == other {
            Tested::Holds
        } else {
            Tested::Wait
        },
        None => Tested::Wait,
    }
}

/// Compares two values. Where they are alike, the pairs of their parts come next.
fn compare<W: Words>(
    trail: &mut Trail,
    words: &mut W,
    work: &mut Vec<(u64, u64)>,
    left: Look,
    right: Look,
) -> Result<Tested, NoMemory>
    requires sound { W.sound words.old }
    requires holds { Holds W.had W.leads trail.old.kept trail.old.binds words.old }
    requires leads { (W.leads words.old (look_word left)) × (W.leads words.old (look_word right)) }
    ensures between { W.later words.old words.new }
    ensures loaded { OnOk result (KeepsLoads W.sound W.had W.leads W.later W.gave trail.old.kept trail.old.binds words.old
        trail.new.kept trail.new.binds words.new) }
    ensures binds { trail.new.binds ≡ trail.old.binds }
    ensures reads { trail.new.reads.items ≡ trail.old.reads.items }
    ensures leaves { IfOk result (λ t. Says (W.own words.new) trail.new.kept
        (λ m. Leaves (compared m left right) (stack work.old.items) t (stack work.new.items))) }
    ensures lead { OnOk result (Each (Both (W.leads words.old)) (stack work.old.items)
        → Each (Both (W.leads words.new)) (stack work.new.items)) }
{
    match left {
        Look::Writable(place) => Ok(is_place(place, place_of(right))),
        Look::ReadOnly(place) => Ok(is_place(place, place_of(right))),
        Look::Solid(one) => match right {
            Look::Writable(_) => Ok(Tested::Wait),
            Look::ReadOnly(_) => Ok(Tested::Wait),
            Look::Solid(other) => {
                if push_alike(trail, words, work, one, other)? {
                    Ok(Tested::Holds)
                } else {
                    Ok(Tested::Not)
                }
            }
        },
    }
}

/// Compares a pair of words, by their values.
fn compare_words<W: Words>(
    trail: &mut Trail,
    words: &mut W,
    work: &mut Vec<(u64, u64)>,
    left: u64,
    right: u64,
) -> Result<Tested, NoMemory>
    requires sound { W.sound words.old }
    requires holds { Holds W.had W.leads trail.old.kept trail.old.binds words.old }
    requires leads { (W.leads words.old left) × (W.leads words.old right) }
    requires tame { Tame trail.old.binds trail.old.kept (W.own words.old) (W.addresses words.old) }
    ensures between { W.later words.old words.new }
    ensures loaded { OnOk result (KeepsLoads W.sound W.had W.leads W.later W.gave trail.old.kept trail.old.binds words.old
        trail.new.kept trail.new.binds words.new) }
    ensures binds { trail.new.binds ≡ trail.old.binds }
    ensures compared { IfOk result (λ t. Says (W.own words.new) trail.new.kept
        (λ m. WasCompared trail.old.binds m trail.old.reads.items (left, right) (stack work.old.items) t trail.new.reads.items
        (stack work.new.items))) }
    ensures lead { OnOk result (Each (Both (W.leads words.old)) (stack work.old.items)
        → Each (Both (W.leads words.new)) (stack work.new.items)) }
{
    let values = two_values(trail, words, left, right)?;
    let done = compare(trail, words, work, values.0, values.1)?;
    Ok(done)
}

/// Puts the first pair on an empty work list.
fn put(work: &mut Vec<(u64, u64)>, left: u64, right: u64) -> Result<(), NoMemory>
    ensures { OnOk result (stack work.new.items ≡ (left, right) ∷ []) }
{
    work.clear();
    match work.push((left, right)) {
        Ok(()) => Ok(()),
        Err(_) => Err(NoMemory),
    }
}

/// Compares the pairs of a work list from its top.
fn compare_all<W: Words>(
    work: &mut Vec<(u64, u64)>,
    trail: &mut Trail,
    words: &mut W,
) -> Result<Tested, NoMemory>
    requires sound { W.sound words.old }
    requires holds { Holds W.had W.leads trail.old.kept trail.old.binds words.old }
    requires leads { Each (Both (W.leads words.old)) (stack work.old.items) }
    requires tame { Tame trail.old.binds trail.old.kept (W.own words.old) (W.addresses words.old) }
    ensures between { W.later words.old words.new }
    ensures loaded { OnOk result (KeepsLoads W.sound W.had W.leads W.later W.gave trail.old.kept trail.old.binds words.old
        trail.new.kept trail.new.binds words.new) }
    ensures binds { trail.new.binds ≡ trail.old.binds }
    ensures equals { IfOk result (λ t. Says (W.own words.new) trail.new.kept
        (λ m. Equals trail.old.binds m trail.old.reads.items (stack work.old.items) t trail.new.reads.items)) }
{
    'pairs: loop {
        let Some(pair) = work.pop() else {
            return Ok(Tested::Holds);
        };
        match compare_words(trail, words, work, pair.0, pair.1)? {
            Tested::Holds => {}
            Tested::Not => return Ok(Tested::Not),
            Tested::Wait => return Ok(Tested::Wait),
        }
    }
}

/// Whether two words are equal at any depth.
pub(crate) fn is_equal<W: Words>(
    work: &mut Vec<(u64, u64)>,
    trail: &mut Trail,
    words: &mut W,
    left: u64,
    right: u64,
) -> Result<Tested, NoMemory>
    requires sound { W.sound words.old }
    requires holds { Holds W.had W.leads trail.old.kept trail.old.binds words.old }
    requires leads { (W.leads words.old left) × (W.leads words.old right) }
    requires tame { Tame trail.old.binds trail.old.kept (W.own words.old) (W.addresses words.old) }
    ensures between { W.later words.old words.new }
    ensures loaded { OnOk result (KeepsLoads W.sound W.had W.leads W.later W.gave trail.old.kept trail.old.binds words.old
        trail.new.kept trail.new.binds words.new) }
    ensures binds { trail.new.binds ≡ trail.old.binds }
    ensures equals { IfOk result (λ t. Says (W.own words.new) trail.new.kept
        (λ m. Equals trail.old.binds m trail.old.reads.items ((left, right) ∷ []) t trail.new.reads.items)) }
{
    put(work, left, right)?;
    let end = compare_all(work, trail, words)?;
    Ok(end)
}
