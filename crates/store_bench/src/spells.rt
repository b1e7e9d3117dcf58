//! What a seat does with one page.
ghost use Rattle.std.specs.Prelude.{◌≡◌, ◌+◌, ◌*◌, ◌<◌, ◌≤◌, ◌^◌, ℕ, [], ◌∷◌};
ghost use Rattle.word_commit.specs.Shows.{IsSeatOf, view_of, spare_of, given_of};
ghost use Rattle.store_bench.specs.Spells.{IsAtRest, Spends, Counter, made};

use crate::counts::{Count, Counts};
use word_commit::{Seat, Store, Taken};

const PAGE: u32 = 1024;

/// Adds one to the second word of a held page, whose top and second word these are, and answers what stands there now.
fn count_once(store: &Store<Counts>, seat: &mut Seat<Counts>, page: u32, top: u64, had: u64) -> u64
    requires seat { IsSeatOf store.now seat.old }
    requires page { page < 3906250 }
    requires counter { Counter (given_of store.now) (view_of seat.old) page top had }
    requires funds { (0 < spare_of seat.old) × (0 < (view_of seat.old).purse.moves) }
    ensures seat { IsSeatOf store.now seat.new }
    ensures counter { Counter (given_of store.now) (view_of seat.new) page top result }
    ensures spends { Spends (view_of seat.old) (view_of seat.new) (spare_of seat.old) (spare_of seat.new) 1 }
{
    let _ = top;
    let addr = PAGE * page + 1;
    store.stamp(seat, Count { addr, had });
    store.publish(seat);
    had.wrapping_add(1)
}

/// The same so many times; not once where the word is not in use. Answers how often.
fn count_held(store: &Store<Counts>, seat: &mut Seat<Counts>, page: u32, entries: u32) -> u32
    requires seat { IsSeatOf store.now seat.old }
    requires page { (page < (given_of store.now).pages) × (page < 3906250) }
    requires held { (view_of seat.old).grip.held ≡ page ∷ [] }
    requires idle { (view_of seat.old).grip.due ≡ [] }
    requires funds { (entries ≤ spare_of seat.old) × (entries ≤ (view_of seat.old).purse.moves) }
    ensures seat { IsSeatOf store.now seat.new }
    ensures held { ((view_of seat.new).grip.held ≡ page ∷ []) × ((view_of seat.new).grip.due ≡ []) }
    ensures spends { Spends (view_of seat.old) (view_of seat.new) (spare_of seat.old) (spare_of seat.new) result }
    ensures few { result ≤ entries }
{
    let top = store.load(seat, PAGE * page);
    let mut word = store.load(seat, PAGE * page + 1);
    if u64::from(PAGE * page + 1) >= top {
        return 0;
    }
    for _done in 0..entries {
        word = count_once(store, seat, page, top, word);
    }
    entries
}

/// Takes a page, adds one to its second word so many times, with an entry each time, and gives it. Answers how many entries it
/// made; `None` where another seat held the page.
pub(crate) fn count_spell(
    store: &Store<Counts>,
    seat: &mut Seat<Counts>,
    page: u32,
    entries: u32,
) -> Option<u32>
    requires seat { IsSeatOf store.now seat.old }
    requires page { page < (given_of store.now).pages }
    requires rest { IsAtRest (view_of seat.old) }
    requires funds { (entries ≤ spare_of seat.old) × (entries ≤ (view_of seat.old).purse.moves) }
    ensures seat { IsSeatOf store.now seat.new }
    ensures rest { IsAtRest (view_of seat.new) }
    ensures spends { Spends (view_of seat.old) (view_of seat.new) (spare_of seat.old) (spare_of seat.new) (made result) }
    ensures few { made result ≤ entries }
{
    let _pages = store.pages();
    if let Taken::Busy = store.take(seat, page) {
        return None;
    }
    let done = count_held(store, seat, page, entries);
    store.give(seat, page);
    Some(done)
}

/// Takes a page and gives it. Answers whether it got it.
pub(crate) fn hold_once(store: &Store<Counts>, seat: &mut Seat<Counts>, page: u32) -> bool
    requires seat { IsSeatOf store.now seat.old }
    requires page { page < (given_of store.now).pages }
    requires rest { IsAtRest (view_of seat.old) }
    ensures seat { IsSeatOf store.now seat.new }
    ensures rest { IsAtRest (view_of seat.new) }
{
    match store.take(seat, page) {
        Taken::Busy => false,
        Taken::Got => {
            store.give(seat, page);
            true
        }
    }
}

/// The second word of a page.
pub(crate) fn look_once(store: &Store<Counts>, seat: &mut Seat<Counts>, page: u32) -> u64
    requires seat { IsSeatOf store.now seat.old }
    requires page { page < (given_of store.now).pages }
    requires rest { IsAtRest (view_of seat.old) }
    ensures seat { IsSeatOf store.now seat.new }
    ensures rest { IsAtRest (view_of seat.new) }
{
    let _pages = store.pages();
    store.load(seat, PAGE * page + 1)
}
