ghost use Rattle.std.specs.Prelude.{◌≡◌, ◌+◌, ◌*◌, ◌<◌, ◌^◌, [], ◌∷◌, length, is_some, if◌then◌else◌, vec_len, IfOk};
ghost use Rattle.word_commit.specs.Openings.{MayOpen};
ghost use Rattle.store_tests.specs.Notes.{note_words, Adds};
ghost use Rattle.word_commit.specs.Shows.{IsSeatOf, view_of, spare_of, given_of};

use crate::notes::{Note, Notes};
use fcp_model::NoMemory;
use std::alloc::Global;
use word_commit::{Seat, Store, Taken};

/// Writes a note at a page's top, and answers its number. `None` where another seat holds the page, or it is full.
pub fn add_note(store: &Store<Notes>, seat: &mut Seat<Notes>, page: u32) -> Option<u64>
    requires seat { IsSeatOf store.now seat.old }
    requires page { page < (given_of store.now).pages }
    requires rest { ((view_of seat.old).grip.held ≡ []) × ((view_of seat.old).grip.due ≡ []) }
    requires funds { (0 < spare_of seat.old) × (0 < (view_of seat.old).purse.cells) × (0 < (view_of seat.old).purse.extra) }
    ensures seat { IsSeatOf store.now seat.new }
    ensures rest { ((view_of seat.new).grip.held ≡ []) × ((view_of seat.new).grip.due ≡ []) }
    ensures adds { Adds (view_of seat.old) (view_of seat.new) (spare_of seat.old) (spare_of seat.new) (if is_some result then 1 else 0) }
{
    let _pages = store.pages();
    if let Taken::Busy = store.take(seat, page) {
        return None;
    }
    let number = note_held(store, seat, page);
    store.publish(seat);
    store.give(seat, page);
    number
}

/// The same in a held page, up to the stamp.
fn note_held(store: &Store<Notes>, seat: &mut Seat<Notes>, page: u32) -> Option<u64>
    requires seat { IsSeatOf store.now seat.old }
    requires page { (page < (given_of store.now).pages) × (page < 3906250) }
    requires held { (view_of seat.old).grip.held ≡ page ∷ [] }
    requires idle { (view_of seat.old).grip.due ≡ [] }
    requires funds { (0 < spare_of seat.old) × (0 < (view_of seat.old).purse.cells) × (0 < (view_of seat.old).purse.extra) }
    ensures seat { IsSeatOf store.now seat.new }
    ensures held { (view_of seat.new).grip.held ≡ page ∷ [] }
    ensures adds { Adds (view_of seat.old) (view_of seat.new) (spare_of seat.old) (spare_of seat.new) (if is_some result then 1 else 0) }
{
    let first = 1024 * page;
    let word = store.load(seat, first);
    if word <= u64::from(first) || word >= u64::from(first) + 1024 {
        return None;
    }
    let top = word as u32;
    store.prime(seat, top, 0);
    Some(store.stamp(seat, Note { page, top }))
}

/// A page of which no word is in use but the first.
pub fn blank_page(alloc: Global) -> Result<Vec<u64>, NoMemory>
    ensures words { IfOk result (λ w. MayOpen note_words w.items) }
    ensures len { IfOk result (λ w. vec_len w ≡ 1024) }
{
    let Ok(mut words) = Vec::from_elem(alloc, 0u64, 1024) else {
        return Err(NoMemory);
    };
    words[0] = 1;
    Ok(words)
}
