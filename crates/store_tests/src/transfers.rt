ghost use Rattle.std.specs.Prelude.{◌≡◌, ◌≢◌, ◌+◌, ◌*◌, ◌<◌, ℕ, [], ◌∷◌, true, length, if◌then◌else◌, is_some, IfNone};
ghost use Rattle.word_commit.specs.Shows.{IsSeatOf, view_of, spare_of, given_of};
ghost use Rattle.word_commit.specs.Views.{all_rights, is_in};
ghost use Rattle.word_commit.specs.Calls.{MatchTaken};
ghost use Rattle.store_tests.specs.Transfers.{IsAtRest, IsAsBefore, Looks, Spends, count_of};

use crate::moved::Moved;
use crate::purses::{Purses, Transfer};
use word_commit::{Seat, Store, Taken};

const PAGE: u32 = 1024;

/// Takes two pages, or none.
fn hold(store: &Store<Purses>, seat: &mut Seat<Purses>, from: u32, to: u32) -> Taken
    requires seat { IsSeatOf store.now seat.old }
    requires pages { (from < (given_of store.now).pages) × (to < (given_of store.now).pages) × (to ≢ from) }
    requires rest { IsAtRest (view_of seat.old) }
    ensures seat { IsSeatOf store.now seat.new × (spare_of seat.new ≡ spare_of seat.old) }
    ensures before { IsAsBefore (view_of seat.old) (view_of seat.new) }
    ensures held { MatchTaken result ((view_of seat.new).grip.held ≡ to ∷ from ∷ []) ((view_of seat.new).grip.held ≡ []) }
    ensures alone { (view_of seat.old).purse.rights ≡ all_rights → result ≡ Taken.Got }
{
    match store.take(seat, from) {
        Taken::Busy => Taken::Busy,
        Taken::Got => match store.take(seat, to) {
            Taken::Got => Taken::Got,
            Taken::Busy => {
                store.give(seat, from);
                Taken::Busy
            }
        },
    }
}

/// The top of a held page, and what is in its purse.
fn look(store: &Store<Purses>, seat: &mut Seat<Purses>, page: u32) -> (u64, u64)
    requires seat { IsSeatOf store.now seat.old }
    requires page { page < (given_of store.now).pages }
    requires small { page < 3906250 }
    requires held { is_in page (view_of seat.old).grip.held ≡ true }
    ensures seat { IsSeatOf store.now seat.new × (spare_of seat.new ≡ spare_of seat.old) }
    ensures looks { Looks (view_of seat.old) (view_of seat.new) page result.0 result.1 }
{
    let top = store.load(seat, PAGE * page);
    let word = store.load(seat, PAGE * page + 1);
    (top, word)
}

/// Stamps the transfer of a coin between the purses of two held pages, where they are in use and the first has one.
fn stamp_coin(store: &Store<Purses>, seat: &mut Seat<Purses>, from: u32, to: u32) -> Option<u64>
    requires seat { IsSeatOf store.now seat.old }
    requires pages { (from < (given_of store.now).pages) × (to < (given_of store.now).pages) × (to ≢ from) }
    requires small { (from < 3906250) × (to < 3906250) }
    requires held { (view_of seat.old).grip.held ≡ to ∷ from ∷ [] }
    requires idle { (view_of seat.old).grip.due ≡ [] }
    requires funds { (0 < spare_of seat.old) × (0 < (view_of seat.old).purse.moves) }
    ensures seat { IsSeatOf store.now seat.new }
    ensures held { (view_of seat.new).grip.held ≡ to ∷ from ∷ [] }
    ensures spends { Spends (view_of seat.old)
        (view_of seat.new) (spare_of seat.old) (spare_of seat.new) (if is_some result then 1 else 0) }
    ensures none { IfNone result ((view_of seat.new).grip.due ≡ []) }
{
    let (first_top, had) = look(store, seat, from);
    let (second_top, owned) = look(store, seat, to);
    let from = PAGE * from + 1;
    let to = PAGE * to + 1;
    if u64::from(from) >= first_top || u64::from(to) >= second_top || had == 0 {
        return None;
    }
    let transfer = Transfer {
        from,
        to,
        had,
        owned,
    };
    Some(store.stamp(seat, transfer))
}

/// Moves a coin from the purse of one page to that of another.
pub fn transfer(store: &Store<Purses>, seat: &mut Seat<Purses>, from: u32, to: u32) -> Moved
    requires seat { IsSeatOf store.now seat.old }
    requires pages { (from < (given_of store.now).pages) × (to < (given_of store.now).pages) × (to ≢ from) }
    requires rest { IsAtRest (view_of seat.old) }
    requires funds { (0 < spare_of seat.old) × (0 < (view_of seat.old).purse.moves) }
    ensures seat { IsSeatOf store.now seat.new }
    ensures rest { IsAtRest (view_of seat.new) }
    ensures spends { Spends (view_of seat.old) (view_of seat.new) (spare_of seat.old) (spare_of seat.new) (count_of result) }
    ensures alone { (view_of seat.old).purse.rights ≡ all_rights → result ≢ Moved.Busy }
{
    let _pages = store.pages();
    match hold(store, seat, from, to) {
        Taken::Busy => Moved::Busy,
        Taken::Got => {
            let number = stamp_coin(store, seat, from, to);
            store.publish(seat);
            store.give(seat, from);
            store.give(seat, to);
            match number {
                Some(number) => Moved::Done(number),
                None => Moved::Empty,
            }
        }
    }
}

/// What another seat finds in the first of two purses after a transfer was stamped, and after it was published.
pub fn glances(
    store: &Store<Purses>,
    seat: &mut Seat<Purses>,
    other: &mut Seat<Purses>,
    from: u32,
    to: u32,
) -> Option<(u64, u64)>
    requires seats { IsSeatOf store.now seat.old × IsSeatOf store.now other.old }
    requires pages { (from < (given_of store.now).pages) × (to < (given_of store.now).pages) × (to ≢ from) }
    requires rest { IsAtRest (view_of seat.old) }
    requires funds { (0 < spare_of seat.old) × (0 < (view_of seat.old).purse.moves) }
{
    let _pages = store.pages();
    if let Taken::Busy = hold(store, seat, from, to) {
        return None;
    }
    stamp_coin(store, seat, from, to)?;
    let before = store.load(other, PAGE * from + 1);
    store.publish(seat);
    let after = store.load(other, PAGE * from + 1);
    Some((before, after))
}
