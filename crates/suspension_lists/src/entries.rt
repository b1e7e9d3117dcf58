//! The entries of a waiting list, from its first one on.
ghost use Rattle.std.specs.Prelude.{◌≡◌, ◌≤◌, ◌++◌, [], ◌∷◌, ℕ, Some, IfOk, OnOk, IfSome};
ghost use Rattle.heap_words.specs.Trails.{word_at, Holds, KeepsLoads};
ghost use Rattle.suspension_lists.specs.Entries.{LeadsTo, MayLead, EntryAt, HasEntries, IsOneOf};

use crate::words::{link_in, process_in, stored};
use fcp_model::NoMemory;
use heap_words::{Trail, Words};

/// An entry of a waiting list: its address, and the process that its first word says.
#[derive(Clone, Copy, Debug, PartialEq, Eq)]
pub struct Entry {
    pub at: u32,
    pub process: u32,
}

/// An entry with its link: the address of the next one, or 0.
#[derive(Clone, Copy)]
pub struct Linked {
    pub entry: Entry,
    pub link: u32,
}

/// The entry at an address to which a known word leads, or `None` where no entry stands there.
fn entry_at<W: Words>(trail: &mut Trail, words: &mut W, at: u32) -> Result<Option<Linked>, NoMemory>
    requires sound { W.sound words.old }
    requires holds { Holds W.had W.leads trail.old.kept trail.old.binds words.old }
    requires store { W.addresses words.old ≤ 4000000000 }
    requires leads { LeadsTo (W.leads words.old) at }
    ensures between { W.later words.old words.new }
    ensures loaded { OnOk result (KeepsLoads W.sound W.had W.leads W.later W.gave trail.old.kept trail.old.binds words.old
        trail.new.kept trail.new.binds words.new) }
    ensures binds { trail.new.binds ≡ trail.old.binds }
    ensures reads { trail.new.reads.items ≡ trail.old.reads.items }
    ensures entry { IfOk result (EntryAt (word_at trail.new.kept) at) }
    ensures leads { IfOk result (λ o. IfSome o (λ r. MayLead (W.leads words.new) r.link)) }
{
    let first = stored(trail, words, at)?;
    let Some(process) = process_in(first) else {
        return Ok(None);
    };
    let third = stored(trail, words, at + 2)?;
    let entry = Entry { at, process };
    Ok(Some(Linked {
        entry,
        link: link_in(third),
    }))
}

/// Puts an entry at the end of a list.
fn push(entries: &mut Vec<Entry>, entry: Entry) -> Result<(), NoMemory>
    ensures { OnOk result (entries.new.items ≡ entries.old.items ++ entry ∷ []) }
{
    match entries.push(entry) {
        Ok(()) => Ok(()),
        Err(_) => Err(NoMemory),
    }
}

/// The entries of the waiting list that begins at an address, or none where it is 0. Entries that were in the list are dropped.
pub(crate) fn walk<W: Words>(
    entries: &mut Vec<Entry>,
    trail: &mut Trail,
    words: &mut W,
    first: u32,
) -> Result<(), NoMemory>
    requires sound { W.sound words.old }
    requires holds { Holds W.had W.leads trail.old.kept trail.old.binds words.old }
    requires store { W.addresses words.old ≤ 4000000000 }
    requires leads { MayLead (W.leads words.old) first }
    ensures between { W.later words.old words.new }
    ensures loaded { OnOk result (KeepsLoads W.sound W.had W.leads W.later W.gave trail.old.kept trail.old.binds words.old
        trail.new.kept trail.new.binds words.new) }
    ensures binds { trail.new.binds ≡ trail.old.binds }
    ensures reads { trail.new.reads.items ≡ trail.old.reads.items }
    ensures entries { OnOk result (HasEntries (word_at trail.new.kept) first entries.new.items) }
    ensures leads { OnOk result ((a : Entry) → IsOneOf a entries.new.items → LeadsTo (W.leads words.new) a.at) }
{
    entries.clear();
    let mut at = first;
    'list: while at != 0 {
        let Some(linked) = entry_at(trail, words, at)? else {
            return Ok(());
        };
        push(entries, linked.entry)?;
        at = linked.link;
    }
    Ok(())
}
