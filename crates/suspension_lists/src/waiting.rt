//! Which processes wait on places, and the writes that wake them.
ghost use Rattle.std.specs.Prelude.{◌≡◌, ◌≤◌, ◌++◌, [], ◌∷◌, ℕ, OnOk, map};
ghost use Rattle.heap_words.specs.Trails.{word_at, Holds, KeepsLoads};
ghost use Rattle.word_states.specs.Words.{IsIn};
ghost use Rattle.word_states.specs.Planning.{ready_words};
ghost use Rattle.suspension_lists.specs.Sleepers.{AddsPlace, AreWaiting};
ghost use Rattle.suspension_lists.specs.Waking.{KeptWakes};
ghost use Rattle.suspension_lists.specs.declared.sleepers.Sleeper.{Sleeper};

use crate::entries::{Entry, walk};
use crate::sleepers::{Sleeper, put_sleepers, sort_once};
use crate::words::{list_in, stored};
use fcp_model::NoMemory;
use heap_words::{Cell, Stand, Trail, Words, encode};
use std::alloc::Global;

/// The lists in which waiting lists are read. A caller keeps them between calls, so that a call takes memory only where they grow.
#[derive(Drop)]
pub struct Sleepers {
    /// The addresses of the processes that were found, by name, each once.
    pub processes: Vec<u32>,
    entries: Vec<Entry>,
    list: Vec<Sleeper>,
}

impl Sleepers {
    /// Lists without anything. They take no memory.
    pub fn make(alloc: Global) -> Sleepers
        ensures { result.processes.items ≡ [] }
    {
        Sleepers {
            processes: Vec::new(alloc),
            entries: Vec::new(alloc),
            list: Vec::new(alloc),
        }
    }

    /// Adds the processes that wait on a place.
    fn add_place<W: Words>(
        &mut self,
        trail: &mut Trail,
        words: &mut W,
        place: u32,
    ) -> Result<(), NoMemory>
        requires sound { W.sound words.old }
        requires holds { Holds W.had W.leads trail.old.kept trail.old.binds words.old }
        requires store { W.addresses words.old ≤ 4000000000 }
        requires known { W.knows words.old place }
        ensures between { W.later words.old words.new }
        ensures loaded { OnOk result (KeepsLoads W.sound W.had W.leads W.later W.gave trail.old.kept trail.old.binds words.old
            trail.new.kept trail.new.binds words.new) }
        ensures binds { trail.new.binds ≡ trail.old.binds }
        ensures reads { trail.new.reads.items ≡ trail.old.reads.items }
        ensures adds { OnOk result (AddsPlace (word_at trail.new.kept) place self.old.list.items self.new.list.items) }
    {
        let word = stored(trail, words, place)?;
        walk(&mut self.entries, trail, words, list_in(word))?;
        put_sleepers(&mut self.list, trail, words, self.entries.as_slice())?;
        Ok(())
    }
    /// Gathers the processes that wait on these places.
    fn gather<W: Words>(
        &mut self,
        trail: &mut Trail,
        words: &mut W,
        places: &[u32],
    ) -> Result<(), NoMemory>
        requires sound { W.sound words.old }
        requires holds { Holds W.had W.leads trail.old.kept trail.old.binds words.old }
        requires store { W.addresses words.old ≤ 4000000000 }
        requires known { (a : ℕ) → IsIn a places.now → W.knows words.old a }
        ensures between { W.later words.old words.new }
        ensures loaded { OnOk result (KeepsLoads W.sound W.had W.leads W.later W.gave trail.old.kept trail.old.binds words.old
            trail.new.kept trail.new.binds words.new) }
        ensures binds { trail.new.binds ≡ trail.old.binds }
        ensures reads { trail.new.reads.items ≡ trail.old.reads.items }
        ensures waiting { OnOk result (AreWaiting (word_at trail.new.kept) places.now self.new.list.items) }
    {
        self.list.clear();
        for &place in places {
            self.add_place(trail, words, place)?;
        }
        Ok(())
    }

    /// Finds the processes that wait on these places, by name and each once.
    fn find<W: Words>(
        &mut self,
        trail: &mut Trail,
        words: &mut W,
        places: &[u32],
    ) -> Result<(), NoMemory>
        requires sound { W.sound words.old }
        requires holds { Holds W.had W.leads trail.old.kept trail.old.binds words.old }
        requires store { W.addresses words.old ≤ 4000000000 }
        requires known { (a : ℕ) → IsIn a places.now → W.knows words.old a }
        ensures between { W.later words.old words.new }
        ensures loaded { OnOk result (KeepsLoads W.sound W.had W.leads W.later W.gave trail.old.kept trail.old.binds words.old
            trail.new.kept trail.new.binds words.new) }
        ensures binds { trail.new.binds ≡ trail.old.binds }
        ensures reads { trail.new.reads.items ≡ trail.old.reads.items }
        ensures wakes { OnOk result (KeptWakes trail.new.kept places.now self.new.processes.items) }
    {
        self.gather(trail, words, places)?;
        sort_once(&mut self.list);
        put_processes(&mut self.processes, self.list.as_slice())?;
        Ok(())
    }
}

/// Puts the processes of sleepers into a list, and drops what was in it.
fn put_processes(processes: &mut Vec<u32>, sleepers: &[Sleeper]) -> Result<(), NoMemory>
    ensures { OnOk result (processes.new.items ≡ map (λ (s : Sleeper). s.process) sleepers.now) }
{
    processes.clear();
    for sleeper in sleepers {
        if processes.push(sleeper.process).is_err() {
            return Err(NoMemory);
        }
    }
    Ok(())
}

/// Puts a write of the status Ready for each process at the end of a list.
fn put_writes(writes: &mut Vec<(u32, u64)>, processes: &[u32]) -> Result<(), NoMemory>
    ensures { OnOk result (writes.new.items ≡ writes.old.items ++ ready_words processes.now) }
{
    for &process in processes {
        if writes
            .push((process, encode(Cell::Status(Stand::Ready))))
            .is_err()
        {
            return Err(NoMemory);
        }
    }
    Ok(())
}

/// Finds the processes that wait on a place. They stand in `sleepers.processes`.
///
/// The words on which this rests are among the kept ones of the trail: those of the place, of the entries of its waiting list,
/// and the status and the name of each process that waits by one of them.
pub fn waiters<W: Words>(
    sleepers: &mut Sleepers,
    trail: &mut Trail,
    words: &mut W,
    place: u32,
) -> Result<(), NoMemory>
    requires sound { W.sound words.old }
    requires holds { Holds W.had W.leads trail.old.kept trail.old.binds words.old }
    requires store { W.addresses words.old ≤ 4000000000 }
    requires known { W.knows words.old place }
    ensures between { W.later words.old words.new }
    ensures loaded { OnOk result (KeepsLoads W.sound W.had W.leads W.later W.gave trail.old.kept trail.old.binds words.old
        trail.new.kept trail.new.binds words.new) }
    ensures binds { trail.new.binds ≡ trail.old.binds }
    ensures reads { trail.new.reads.items ≡ trail.old.reads.items }
    ensures wakes { OnOk result (KeptWakes trail.new.kept (place ∷ []) sleepers.new.processes.items) }
{
    sleepers.find(trail, words, &[place])?;
    Ok(())
}

/// Finds the processes that wait on places that are about to be bound, and puts for each the write that wakes it at the end of a
/// list. The processes stand in `sleepers.processes`. Where memory runs out, some of the writes may be there.
pub fn wake_writes<W: Words>(
    sleepers: &mut Sleepers,
    trail: &mut Trail,
    words: &mut W,
    places: &[u32],
    writes: &mut Vec<(u32, u64)>,
) -> Result<(), NoMemory>
    requires sound { W.sound words.old }
    requires holds { Holds W.had W.leads trail.old.kept trail.old.binds words.old }
    requires store { W.addresses words.old ≤ 4000000000 }
    requires known { (a : ℕ) → IsIn a places.now → W.knows words.old a }
    ensures between { W.later words.old words.new }
    ensures loaded { OnOk result (KeepsLoads W.sound W.had W.leads W.later W.gave trail.old.kept trail.old.binds words.old
        trail.new.kept trail.new.binds words.new) }
    ensures binds { trail.new.binds ≡ trail.old.binds }
    ensures reads { trail.new.reads.items ≡ trail.old.reads.items }
    ensures wakes { OnOk result (KeptWakes trail.new.kept places.now sleepers.new.processes.items) }
    ensures writes { OnOk result (writes.new.items ≡ writes.old.items ++ ready_words sleepers.new.processes.items) }
{
    sleepers.find(trail, words, places)?;
    put_writes(writes, sleepers.processes.as_slice())?;
    Ok(())
}
