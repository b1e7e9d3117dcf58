//! The processes that wait by the entries of waiting lists.
ghost use Rattle.std.specs.Prelude.{◌≡◌, ◌≤◌, ◌++◌, [], ◌∷◌, ◌↔◌, ℕ, Some, IfOk, OnOk};
ghost use Rattle.heap_words.specs.Trails.{word_at, Holds, KeepsLoads};
ghost use Rattle.suspension_lists.specs.Cells.{process_of};
ghost use Rattle.suspension_lists.specs.Entries.{Tells, LeadsTo, IsOneOf};
ghost use Rattle.suspension_lists.specs.Sleepers.{Judges, pushed, Adds, Rise};
ghost use Rattle.suspension_lists.specs.declared.entries.Entry.{Entry};
ghost use Rattle.suspension_lists.specs.declared.sleepers.Sleeper.{Sleeper};

use crate::entries::Entry;
use crate::words::{is_waiting_by, number_in, stored};
use fcp_model::NoMemory;
use heap_words::{Trail, Words};

/// A process that waits: the number in its name word, and its address. Sleepers are compared by name first.
#[derive(Clone, Copy, Debug, PartialEq, Eq, PartialOrd, Ord)]
pub struct Sleeper {
    pub name: u64,
    pub process: u32,
}

/// The process of an entry, where it waits by the entry's hang; `None` where that hang is over.
fn sleeper_by<W: Words>(
    trail: &mut Trail,
    words: &mut W,
    entry: Entry,
) -> Result<Option<Sleeper>, NoMemory>
    requires sound { W.sound words.old }
    requires holds { Holds W.had W.leads trail.old.kept trail.old.binds words.old }
    requires store { W.addresses words.old ≤ 4000000000 }
    requires leads { LeadsTo (W.leads words.old) entry.at }
    requires process { Tells process_of (word_at trail.old.kept) entry.at (Some entry.process) }
    ensures between { W.later words.old words.new }
    ensures loaded { OnOk result (KeepsLoads W.sound W.had W.leads W.later W.gave trail.old.kept trail.old.binds words.old
        trail.new.kept trail.new.binds words.new) }
    ensures binds { trail.new.binds ≡ trail.old.binds }
    ensures reads { trail.new.reads.items ≡ trail.old.reads.items }
    ensures judges { IfOk result (Judges (word_at trail.new.kept) entry) }
{
    let number = stored(trail, words, entry.at + 1)?;
    let status = stored(trail, words, entry.process)?;
    if !is_waiting_by(number_in(number), status) {
        return Ok(None);
    }
    let name = stored(trail, words, entry.process + 1)?;
    Ok(Some(Sleeper {
        name: number_in(name),
        process: entry.process,
    }))
}

/// Puts what was found at an entry at the end of a list.
fn push_found(sleepers: &mut Vec<Sleeper>, found: Option<Sleeper>) -> Result<(), NoMemory>
    ensures { OnOk result (sleepers.new.items ≡ pushed found sleepers.old.items) }
{
    let Some(sleeper) = found else {
        return Ok(());
    };
    match sleepers.push(sleeper) {
        Ok(()) => Ok(()),
        Err(_) => Err(NoMemory),
    }
}

/// Puts the processes that wait by these entries at the end of a list.
pub(crate) fn put_sleepers<W: Words>(
    sleepers: &mut Vec<Sleeper>,
    trail: &mut Trail,
    words: &mut W,
    entries: &[Entry],
) -> Result<(), NoMemory>
    requires sound { W.sound words.old }
    requires holds { Holds W.had W.leads trail.old.kept trail.old.binds words.old }
    requires store { W.addresses words.old ≤ 4000000000 }
    requires leads { (a : Entry) → IsOneOf a entries.now → LeadsTo (W.leads words.old) a.at }
    requires process { (a : Entry) → IsOneOf a entries.now → Tells process_of (word_at trail.old.kept) a.at (Some a.process) }
    ensures between { W.later words.old words.new }
    ensures loaded { OnOk result (KeepsLoads W.sound W.had W.leads W.later W.gave trail.old.kept trail.old.binds words.old
        trail.new.kept trail.new.binds words.new) }
    ensures binds { trail.new.binds ≡ trail.old.binds }
    ensures reads { trail.new.reads.items ≡ trail.old.reads.items }
    ensures adds { OnOk result (Adds (word_at trail.new.kept) entries.now sleepers.old.items sleepers.new.items) }
{
    for &entry in entries {
        let found = sleeper_by(trail, words, entry)?;
        push_found(sleepers, found)?;
    }
    Ok(())
}

/// Sorts sleepers and leaves each of them once.
pub(crate) fn sort_once(sleepers: &mut Vec<Sleeper>)
    ensures same { (s : Sleeper) → (IsOneOf s sleepers.old.items) ↔ (IsOneOf s sleepers.new.items) }
    ensures rise { Rise sleepers.new.items }
{
    sleepers.sort_unstable();
    sleepers.dedup();
}
