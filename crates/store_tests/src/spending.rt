ghost use Rattle.std.specs.Prelude.{◌≡◌, ◌≢◌, ◌+◌, ◌<◌, ◌≤◌};
ghost use Rattle.word_commit.specs.Shows.{IsSeatOf, view_of, spare_of, given_of};
ghost use Rattle.word_commit.specs.Views.{all_rights};
ghost use Rattle.store_tests.specs.Transfers.{IsAtRest, Spends};

use crate::moved::Moved;
use crate::purses::Purses;
use crate::transfers::transfer;
use word_commit::{Seat, Store};

/// What a seat counted: transfers that were made, and those that met a page in another seat's hand.
#[derive(Clone, Copy, Debug, PartialEq, Eq)]
pub struct Tally {
    pub done: u32,
    pub busy: u32,
    /// Whether the numbers of its entries rose.
    pub rising: bool,
}

/// Tries so many transfers.
pub fn spend(
    store: &Store<Purses>,
    seat: &mut Seat<Purses>,
    from: u32,
    to: u32,
    wanted: u32,
) -> Tally
    requires seat { IsSeatOf store.now seat.old }
    requires pages { (from < (given_of store.now).pages) × (to < (given_of store.now).pages) × (to ≢ from) }
    requires rest { IsAtRest (view_of seat.old) }
    requires funds { (wanted ≤ spare_of seat.old) × (wanted ≤ (view_of seat.old).purse.moves) }
    ensures seat { IsSeatOf store.now seat.new }
    ensures rest { IsAtRest (view_of seat.new) }
    ensures spends { Spends (view_of seat.old) (view_of seat.new) (spare_of seat.old) (spare_of seat.new) result.done }
    ensures few { result.done + result.busy ≤ wanted }
    ensures alone { (view_of seat.old).purse.rights ≡ all_rights → result.busy ≡ 0 }
{
    let mut done = 0;
    let mut busy = 0;
    let mut last = 0;
    let mut rising = true;
    for _turn in 0..wanted {
        match transfer(store, seat, from, to) {
            Moved::Done(number) => {
                rising = rising && last < number;
                last = number;
                done += 1;
            }
            Moved::Busy => busy += 1,
            Moved::Empty => {}
        }
    }
    Tally { done, busy, rising }
}
