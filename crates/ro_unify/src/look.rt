//! The value of a word: what is found where references are followed.
ghost use Rattle.std.specs.Prelude.{◌≡◌, IfOk, OnOk, IfSome, false};
ghost use Rattle.heap_words.specs.Cells.{encoded, decoded};
ghost use Rattle.heap_words.specs.Trails.{Agrees, Holds, KeepsLoads, Says};
ghost use Rattle.ro_unify.specs.Walks.{Tame};
ghost use Rattle.ro_unify.specs.Value.{step_of, place_step, open_at, leads_on, Values, look_word, StepLeads};

use fcp_model::NoMemory;
use heap_words::{Cell, Trail, Words, decode};

/// The value of a word: an unbound place by its address, which may be bound or not, or the word of anything else.
#[derive(Clone, Copy, Debug, PartialEq, Eq)]
pub enum Look {
    Writable(u32),
    ReadOnly(u32),
    Solid(u64),
}

/// One step of a value: it is found, or it goes on at a word, read-only from now on or as before.
#[derive(Clone, Copy)]
pub enum Step {
    End(Look),
    On(bool, u64),
}

/// An unbound place, met through a read-only mark or not.
fn open(only: bool, place: u32) -> Look
    ensures { result ≡ open_at only place }
{
    if only {
        Look::ReadOnly(place)
    } else {
        Look::Writable(place)
    }
}

/// One step through a place whose word is known.
fn through(only: bool, place: u32, word: u64) -> Step
    ensures { result ≡ place_step only place word }
{
    match decode(word) {
        Some(Cell::Unbound(_)) => Step::End(open(only, place)),
        _ => Step::On(only, word),
    }
}

/// The place to which a word refers, and whether read-only.
fn place_of(only: bool, word: u64) -> Option<(bool, u32)>
    ensures { result ≡ leads_on only (decoded word) }
{
    match decode(word) {
        Some(Cell::Ref(place)) => Some((only, place)),
        Some(Cell::RoRef(place)) => Some((true, place)),
        _ => None,
    }
}

/// One step of the value of a word, which a read-only mark was met before or not.
fn follow<W: Words>(
    trail: &mut Trail,
    words: &mut W,
    only: bool,
    word: u64,
) -> Result<Step, NoMemory>
    requires sound { W.sound words.old }
    requires holds { Holds W.had W.leads trail.old.kept trail.old.binds words.old }
    requires leads { W.leads words.old word }
    ensures between { W.later words.old words.new }
    ensures loaded { OnOk result (KeepsLoads W.sound W.had W.leads W.later W.gave trail.old.kept trail.old.binds words.old
        trail.new.kept trail.new.binds words.new) }
    ensures binds { trail.new.binds ≡ trail.old.binds }
    ensures reads { trail.new.reads.items ≡ trail.old.reads.items }
    ensures step { IfOk result (λ s. Says (W.own words.new) trail.new.kept (λ m. step_of trail.old.binds m only word ≡ s)) }
    ensures leads { IfOk result (StepLeads (W.leads words.new)) }
{
    match place_of(only, word) {
        None => Ok(Step::End(Look::Solid(word))),
        Some((only, place)) => match trail.bound(place) {
            Some(next) => Ok(Step::On(only, next)),
            None => {
                let next = trail.word(words, place)?;
                Ok(through(only, place, next))
            }
        },
    }
}

/// The value of a word under the private bindings. Once a read-only mark was met, an unbound place is read-only.
pub fn deref<W: Words>(trail: &mut Trail, words: &mut W, word: u64) -> Result<Look, NoMemory>
    requires sound { W.sound words.old }
    requires holds { Holds W.had W.leads trail.old.kept trail.old.binds words.old }
    requires leads { W.leads words.old word }
    requires tame { Tame trail.old.binds trail.old.kept (W.own words.old) (W.addresses words.old) }
    ensures between { W.later words.old words.new }
    ensures loaded { OnOk result (KeepsLoads W.sound W.had W.leads W.later W.gave trail.old.kept trail.old.binds words.old
        trail.new.kept trail.new.binds words.new) }
    ensures binds { trail.new.binds ≡ trail.old.binds }
    ensures reads { trail.new.reads.items ≡ trail.old.reads.items }
    ensures value { IfOk result (λ l. Says (W.own words.new) trail.new.kept (λ m. Values trail.old.binds m false word l)) }
    ensures leads { IfOk result (λ l. W.leads words.new (look_word l)) }
{
    let mut only = false;
    let mut at = word;
    'chain: loop {
        match follow(trail, words, only, at)? {
            Step::End(look) => return Ok(look),
            Step::On(still, next) => {
                only = still;
                at = next;
            }
        }
    }
}
