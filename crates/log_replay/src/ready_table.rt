//! The Ready processes by name.
ghost use Rattle.std.specs.Prelude.{◌≡◌, ℕ, [], Some, OnOk};
ghost use Rattle.heap_words.specs.Heaps.{inside_at};
ghost use Rattle.word_states.specs.Words.{IsIn};
ghost use Rattle.commit_engine.specs.PlainHalls.{IsPlain, IsSame};
ghost use Rattle.run_laws.specs.Running.{IsProcessInUse};
ghost use Rattle.log_replay.specs.Tables.{address_of, PutsAll, TakesOut};
ghost use Rattle.log_replay.specs.Parts.{NamesThere, PutsIn};

use commit_engine::PlainHall;
use fcp_model::{NoMemory, Proc};
use heap_words::Words;
use indexmap::IndexMap;
use std::alloc::Global;
use word_texts::place_in;

/// The names of processes that are Ready, each with the address of its words.
#[derive(Drop)]
pub struct ReadyTable {
    addresses: IndexMap<Proc, u32>,
}

/// The name of the process at an address, which stands in the word after its status.
fn name_at(hall: &mut PlainHall, process: u32) -> Proc
    requires plain { IsPlain hall.old }
    requires known { IsProcessInUse hall.old.words.items process }
    ensures same { IsSame hall.old hall.new }
    ensures plain { IsPlain hall.new }
    ensures name { NamesThere (inside_at hall.old.words.items) process result }
{
    let name = place_in(hall.load(process + 1));
    Proc {
        entry: name.entry,
        number: name.number,
    }
}

impl ReadyTable {
    /// A table with nothing in it.
    pub(crate) fn make(alloc: Global) -> ReadyTable
        ensures { result.addresses.entries ≡ [] }
    {
        ReadyTable {
            addresses: IndexMap::new(alloc),
        }
    }

    /// The address of a process, where it is in the table.
    pub(crate) fn find(&self, process: Proc) -> Option<u32>
        ensures { result ≡ address_of self.now.addresses.entries process }
    {
        self.addresses.get(&process).copied()
    }

    /// Takes a process out of the table.
    pub(crate) fn take_out(&mut self, process: Proc)
        ensures { TakesOut process self.old.addresses.entries self.new.addresses.entries }
    {
        let _ = self.addresses.swap_remove(&process);
    }

    /// Puts a process into the table.
    fn put(&mut self, process: Proc, address: u32) -> Result<(), NoMemory>
        ensures { OnOk result (PutsIn process address self.old.addresses.entries self.new.addresses.entries) }
    {
        match self.addresses.insert(process, address) {
            Ok(_) => Ok(()),
            Err(_) => Err(NoMemory),
        }
    }

    /// Puts the processes at some addresses into the table, by their names.
    pub(crate) fn put_all(
        &mut self,
        hall: &mut PlainHall,
        processes: &[u32],
    ) -> Result<(), NoMemory>
        requires plain { IsPlain hall.old }
        requires known { (q : ℕ) → IsIn q processes.now → IsProcessInUse hall.old.words.items q }
        ensures same { IsSame hall.old hall.new }
        ensures plain { IsPlain hall.new }
        ensures puts { OnOk result (PutsAll (inside_at hall.old.words.items) processes.now self.old.addresses.entries
            self.new.addresses.entries) }
    {
        for &process in processes {
            let name = name_at(hall, process);
            self.put(name, process)?;
        }
        Ok(())
    }
}
