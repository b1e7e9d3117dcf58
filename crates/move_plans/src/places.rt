//! The places for which a process waits, with the waiting lists that are there.
ghost use Rattle.std.specs.Prelude.{◌≡◌, ◌++◌, ℕ, [], ◌∷◌, OnOk};
ghost use Rattle.heap_words.specs.Cells.{decoded};
ghost use Rattle.word_states.specs.Led.{ReadsPlace};
ghost use Rattle.word_states.specs.Words.{IsIn};
ghost use Rattle.page_layout.specs.Hangs.{threes};
ghost use Rattle.safe_tries.specs.Stored.{IsStored};
ghost use Rattle.suspension_lists.specs.Cells.{list_of};
ghost use Rattle.trial_machine.specs.Stores.{Loads};
ghost use Rattle.move_plans.specs.Places.{PutsPlace, HasPlaces};

use fcp_model::NoMemory;
use heap_words::{Cell, Trail, Words, decode};
use trial_machine::load_word;

/// How many words a waiting entry has.
const ENTRY: u32 = 3;

/// The first entry of the waiting list of the place with this word, and 0 where none waits.
fn list_in(word: u64) -> u32
    ensures { result ≡ list_of (decoded word) }
{
    match decode(word) {
        Some(Cell::Unbound(first)) => first,
        _ => 0,
    }
}

/// Puts a place with the first entry of its list at the end of a list.
fn put_place<W: Words>(
    lists: &mut Vec<(u32, u32)>,
    trail: &mut Trail,
    words: &mut W,
    place: u32,
) -> Result<(), NoMemory>
    requires stored { IsStored W.addresses W.sound W.had W.shown W.later trail.old.kept words.old }
    requires free { trail.old.binds ≡ [] }
    requires known { W.knows words.old place }
    ensures between { W.later words.old words.new }
    ensures loaded { OnOk result (Loads W.addresses W.sound W.had W.shown W.later W.gave trail.old.kept words.old trail.new.kept
        words.new) }
    ensures binds { trail.new.binds ≡ trail.old.binds }
    ensures puts { OnOk result (PutsPlace trail.new.kept place lists.old.items lists.new.items) }
{
    let word = load_word(trail, words, place)?;
    match lists.push((place, list_in(word))) {
        Ok(()) => Ok(()),
        Err(_) => Err(NoMemory),
    }
}

/// Fills a list with places that were read unbound, each with the first entry of its list.
pub(crate) fn put_places<W: Words>(
    lists: &mut Vec<(u32, u32)>,
    trail: &mut Trail,
    words: &mut W,
    places: &[u32],
) -> Result<(), NoMemory>
    requires stored { IsStored W.addresses W.sound W.had W.shown W.later trail.old.kept words.old }
    requires free { trail.old.binds ≡ [] }
    requires opened { (a : ℕ) → IsIn a places.now → (e : ℕ) × ReadsPlace trail.old.kept a e }
    ensures between { W.later words.old words.new }
    ensures loaded { OnOk result (Loads W.addresses W.sound W.had W.shown W.later W.gave trail.old.kept words.old trail.new.kept
        words.new) }
    ensures binds { trail.new.binds ≡ trail.old.binds }
    ensures places { OnOk result (HasPlaces trail.new.kept places.now lists.new.items) }
{
    lists.clear();
    for &place in places {
        put_place(lists, trail, words, place)?;
    }
    Ok(())
}

/// Puts the size of a waiting entry at the end of a list.
fn put_three(sizes: &mut Vec<u32>) -> Result<(), NoMemory>
    ensures { OnOk result (sizes.new.items ≡ sizes.old.items ++ 3 ∷ []) }
{
    match sizes.push(ENTRY) {
        Ok(()) => Ok(()),
        Err(_) => Err(NoMemory),
    }
}

/// Fills a list with the sizes of so many waiting entries.
pub(crate) fn put_threes(sizes: &mut Vec<u32>, count: usize) -> Result<(), NoMemory>
    ensures { OnOk result (sizes.new.items ≡ threes count) }
{
    sizes.clear();
    for i in 0..count {
        put_three(sizes)?;
    }
    Ok(())
}
