//! Whom a commit wakes.
ghost use Rattle.std.specs.Prelude.{◌≡◌, ℕ, [], OnOk};
ghost use Rattle.word_states.specs.Led.{ReadsPlace};
ghost use Rattle.word_states.specs.Words.{Among, IsIn, addresses_of};
ghost use Rattle.safe_tries.specs.Stored.{IsStored};
ghost use Rattle.suspension_lists.specs.Waking.{KeptWakes};
ghost use Rattle.trial_machine.specs.Stores.{Loads};

use crate::copies::{put_addresses, put_all};
use fcp_model::NoMemory;
use heap_words::{Trail, Words};
use std::alloc::Global;
use suspension_lists::{Sleepers, wake_writes};

/// The lists in which the processes that wait are found. They are kept from one plan to the next.
#[derive(Drop)]
pub(crate) struct Wakers {
    sleepers: Sleepers,
    writes: Vec<(u32, u64)>,
}

impl Wakers {
    /// Lists without anything. They take no memory.
    pub(crate) fn make(alloc: Global) -> Wakers {
        Wakers {
            sleepers: Sleepers::make(alloc),
            writes: Vec::new(alloc),
        }
    }

    /// Finds the processes that wait on one of these addresses.
    fn find<W: Words>(
        &mut self,
        trail: &mut Trail,
        words: &mut W,
        places: &[u32],
    ) -> Result<(), NoMemory>
        requires stored { IsStored W.addresses W.sound W.had W.shown W.later trail.old.kept words.old }
        requires free { trail.old.binds ≡ [] }
        requires known { (a : ℕ) → IsIn a places.now → W.knows words.old a }
        ensures between { W.later words.old words.new }
        ensures loaded { OnOk result (Loads W.addresses W.sound W.had W.shown W.later W.gave trail.old.kept words.old trail.new.kept
            words.new) }
        ensures binds { trail.new.binds ≡ trail.old.binds }
        ensures wakes { OnOk result (KeptWakes trail.new.kept places.now self.new.sleepers.processes.items) }
    {
        self.writes.clear();
        wake_writes(&mut self.sleepers, trail, words, places, &mut self.writes)?;
        Ok(())
    }
}

/// Fills two lists: with the addresses of the places that are bound, in their order, and with those of the processes that wait on one
/// of them, by name.
pub(crate) fn find_woken<W: Words>(
    wakers: &mut Wakers,
    trail: &mut Trail,
    words: &mut W,
    binds: &[(u32, u64)],
    bound: &mut Vec<u32>,
    woken: &mut Vec<u32>,
) -> Result<(), NoMemory>
    requires stored { IsStored W.addresses W.sound W.had W.shown W.later trail.old.kept words.old }
    requires free { trail.old.binds ≡ [] }
    requires opened { (a x : ℕ) → Among binds.now (a, x) → (e : ℕ) × ReadsPlace trail.old.kept a e }
    ensures between { W.later words.old words.new }
    ensures loaded { OnOk result (Loads W.addresses W.sound W.had W.shown W.later W.gave trail.old.kept words.old trail.new.kept
        words.new) }
    ensures binds { trail.new.binds ≡ trail.old.binds }
    ensures bound { OnOk result (bound.new.items ≡ addresses_of binds.now) }
    ensures wakes { OnOk result (KeptWakes trail.new.kept (addresses_of binds.now) woken.new.items) }
{
    put_addresses(bound, binds)?;
    wakers.find(trail, words, bound.as_slice())?;
    put_all(woken, wakers.sleepers.processes.as_slice())?;
    Ok(())
}
