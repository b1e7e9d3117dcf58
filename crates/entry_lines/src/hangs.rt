//! The places on which a process waits.
ghost use Rattle.std.specs.Prelude.{◌≡◌, ◌↔◌, ℕ, ◌-◌, ◌*◌, ◌<◌, true, OnOk};
ghost use Rattle.std.specs.List.{AllZip};
ghost use Rattle.fcp_model.specs.Places.{is_listed};
ghost use Rattle.fcp_model.specs.declared.run.Place.{Place};
ghost use Rattle.heap_words.specs.Trails.{KeepsLoads};
ghost use Rattle.word_states.specs.Words.{IsIn};
ghost use Rattle.entry_lines.specs.Reading.{ReadsStore, NamesPlace, NamesSet};
ghost use Rattle.entry_lines.specs.Waits.{AreByAge};

use crate::names::place_name;
use fcp_model::{NoMemory, Place};
use heap_words::{Trail, Words};

/// Puts the names of the places whose words are at some addresses into a list, and drops what was in it.
fn put_places<W: Words>(
    places: &mut Vec<Place>,
    trail: &mut Trail,
    words: &mut W,
    addresses: &[u32],
) -> Result<(), NoMemory>
    requires reads { ReadsStore W.sound W.had W.leads W.own W.addresses trail.old.kept trail.old.binds words.old }
    requires known { (a : ℕ) → IsIn a addresses.now → (0 < a) × W.knows words.old (a - 1) }
    ensures between { W.later words.old words.new }
    ensures loaded { OnOk result (KeepsLoads W.sound W.had W.leads W.later W.gave trail.old.kept trail.old.binds words.old
        trail.new.kept trail.new.binds words.new) }
    ensures binds { trail.new.binds ≡ trail.old.binds }
    ensures named { OnOk result (AllZip (NamesPlace trail.new.kept) addresses.now places.new.items) }
{
    places.clear();
    for &address in addresses {
        let name = place_name(trail, words, address)?;
        if places.push(name).is_err() {
            return Err(NoMemory);
        }
    }
    Ok(())
}

/// Sorts places by age, and leaves each of them once.
fn sort_once(places: &mut Vec<Place>)
    ensures same { (j : Place) → (is_listed j places.old.items ≡ true) ↔ (is_listed j places.new.items ≡ true) }
    ensures by_age { AreByAge places.new.items }
{
    places.sort_unstable();
    places.dedup();
}

/// Puts the places of a waiting set into a list, by age, and drops what was in it. Their words are at these addresses, in any order.
pub fn waiting_set<W: Words>(
    places: &mut Vec<Place>,
    trail: &mut Trail,
    words: &mut W,
    addresses: &[u32],
) -> Result<(), NoMemory>
    requires reads { ReadsStore W.sound W.had W.leads W.own W.addresses trail.old.kept trail.old.binds words.old }
    requires known { (a : ℕ) → IsIn a addresses.now → (0 < a) × W.knows words.old (a - 1) }
    ensures between { W.later words.old words.new }
    ensures loaded { OnOk result (KeepsLoads W.sound W.had W.leads W.later W.gave trail.old.kept trail.old.binds words.old
        trail.new.kept trail.new.binds words.new) }
    ensures binds { trail.new.binds ≡ trail.old.binds }
    ensures set { OnOk result (NamesSet trail.new.kept addresses.now places.new.items) }
{
    put_places(places, trail, words, addresses)?;
    sort_once(places);
    Ok(())
}
