//! What one seat does, round by round.
ghost use Rattle.std.specs.Prelude.{◌≡◌, ◌+◌, ◌<◌, ◌≤◌};
ghost use Rattle.word_commit.specs.Shows.{IsSeatOf, view_of, spare_of, given_of};
ghost use Rattle.store_bench.specs.Spells.{IsAtRest};

use crate::counts::Counts;
use crate::spells::{count_spell, hold_once, look_once};
use word_commit::{Seat, Store};

/// Pages that a seat goes round: the first one, and how many.
#[derive(Clone, Copy, Debug, PartialEq, Eq)]
pub(crate) struct Ring {
    pub first: u32,
    pub spread: u32,
}

/// What a seat counted: rounds that it did, takes that met the page in another seat's hand, and the sum of the words that it loaded.
#[derive(Clone, Copy, Debug, PartialEq, Eq)]
pub(crate) struct Tally {
    pub done: u32,
    pub busy: u64,
    pub sum: u64,
}

/// The page of a turn.
fn page_of(ring: Ring, turn: u64) -> u32
    requires { (0 < ring.spread) × (ring.first + ring.spread ≤ 3906250) }
    ensures { result < ring.first + ring.spread }
{
    ring.first + (turn % u64::from(ring.spread)) as u32
}

/// Loads so many words.
pub(crate) fn load_all(
    store: &Store<Counts>,
    seat: &mut Seat<Counts>,
    ring: Ring,
    rounds: u32,
) -> Tally
    requires seat { IsSeatOf store.now seat.old }
    requires rest { IsAtRest (view_of seat.old) }
    requires ring { (0 < ring.spread) × (ring.first + ring.spread ≤ (given_of store.now).pages) }
{
    let _pages = store.pages();
    let mut sum = 0u64;
    for turn in 0..rounds {
        let page = page_of(ring, u64::from(turn));
        sum = sum.wrapping_add(look_once(store, seat, page));
    }
    Tally {
        done: rounds,
        busy: 0,
        sum,
    }
}

/// Takes and gives pages, until it got so many.
pub(crate) fn hold_all(
    store: &Store<Counts>,
    seat: &mut Seat<Counts>,
    ring: Ring,
    rounds: u32,
) -> Tally
    requires seat { IsSeatOf store.now seat.old }
    requires rest { IsAtRest (view_of seat.old) }
    requires ring { (0 < ring.spread) × (ring.first + ring.spread ≤ (given_of store.now).pages) }
{
    let _pages = store.pages();
    let mut done = 0;
    let mut busy = 0u64;
    for turn in 0..u64::MAX {
        if done >= rounds {
            break;
        }
        if hold_once(store, seat, page_of(ring, turn)) {
            done += 1;
        } else {
            busy = busy.wrapping_add(1);
        }
    }
    Tally { done, busy, sum: 0 }
}

/// Makes so many entries, and gives a page after this many of them.
pub(crate) fn count_all(
    store: &Store<Counts>,
    seat: &mut Seat<Counts>,
    ring: Ring,
    rounds: u32,
    entries: u32,
) -> Tally
    requires seat { IsSeatOf store.now seat.old }
    requires rest { IsAtRest (view_of seat.old) }
    requires ring { (0 < ring.spread) × (ring.first + ring.spread ≤ (given_of store.now).pages) }
    requires funds { (rounds ≤ spare_of seat.old) × (rounds ≤ (view_of seat.old).purse.moves) }
{
    let _pages = store.pages();
    let mut done = 0;
    let mut busy = 0u64;
    for turn in 0..u64::MAX {
        if done >= rounds {
            break;
        }
        match count_spell(store, seat, page_of(ring, turn), entries.min(rounds - done)) {
            Some(made) => done += made,
            None => busy = busy.wrapping_add(1),
        }
    }
    Tally { done, busy, sum: 0 }
}
