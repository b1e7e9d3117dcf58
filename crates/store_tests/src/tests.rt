use crate::{LEAST_NOTE, Notes, Purses, Transfer, add_note, bank, blank_page, glances, purse_run};
use std::test::Fail;
use word_commit::{Closed, Quota, Shared, Store, Taken};

/// What is in a purse of a closed bank.
fn purse_at(closed: &Closed<Transfer>, page: u32) -> Option<u64> {
    let addr = page.checked_mul(1024)?.checked_add(1)?;
    if (addr as usize) < closed.words.len() {
        Some(closed.words.word(addr))
    } else {
        None
    }
}

/// Makes the log again over these coins: whether each entry read what stood there, and the closed words are what it left.
fn replays(coins: &mut [u64], closed: &Closed<Transfer>) -> bool {
    for entry in closed.log.as_slice() {
        let from = entry.from as usize / 1024;
        let to = entry.to as usize / 1024;
        if from >= coins.len() || to >= coins.len() {
            return false;
        }
        if coins[from] != entry.had || coins[to] != entry.owned || entry.had == 0 {
            return false;
        }
        coins[from] = entry.had - 1;
        coins[to] = entry.owned.wrapping_add(1);
    }
    let mut page = 0u32;
    for coin in coins.iter() {
        if purse_at(closed, page) != Some(*coin) {
            return false;
        }
        page = page.wrapping_add(1);
    }
    true
}

/// Two seats in two threads move 40 coins each, and the caller makes the transfers that met a page in the other's hand.
#[test]
fn two_seats_move_coins(rt: HostRuntime) -> Result<(), Fail> {
    let Some(finish) = purse_run(&rt, rt.alloc(), &[100, 0], &[(0, 1), (0, 1)], 40) else {
        panic!(rt; "memory is there")
    };
    assert_eq!(rt; purse_at(&finish.closed, 0), Some(20));
    assert_eq!(rt; purse_at(&finish.closed, 1), Some(80));
    assert_eq!(rt; finish.closed.log.len(), 80);
    assert!(rt; replays(&mut [100, 0], &finish.closed));
    Ok(())
}

/// Eight threads over sixteen pages: each entry stands in the log once, numbers rise in each seat, and no coin is lost.
#[test]
fn eight_seats_move_coins(rt: HostRuntime) -> Result<(), Fail> {
    let plan = [
        (0, 1),
        (1, 2),
        (3, 4),
        (4, 5),
        (6, 7),
        (7, 8),
        (9, 15),
        (15, 14),
    ];
    let Some(finish) = purse_run(&rt, rt.alloc(), &[1000; 16], &plan, 50) else {
        panic!(rt; "memory is there")
    };
    let moved = finish.tally.done.wrapping_add(finish.rest.done);
    assert_eq!(rt; finish.closed.log.len(), moved as usize);
    assert_eq!(rt; moved, 400);
    assert!(rt; finish.tally.rising && finish.rest.rising);
    assert!(rt; replays(&mut [1000; 16], &finish.closed));
    let mut coins = 0u64;
    for page in 0..16 {
        coins = coins.wrapping_add(purse_at(&finish.closed, page).unwrap_or(0));
    }
    assert_eq!(rt; coins, 16000);
    Ok(())
}

const NOTHING: Quota = Quota {
    commits: 0,
    moves: 0,
    cells: 0,
};

#[test]
fn a_page_is_held_by_one(rt: HostRuntime) -> Result<(), Fail> {
    let words = bank(rt.alloc(), &[1])?;
    let (store, seat) = Store::<Purses>::make(rt.alloc(), words, NOTHING, 0)?;
    let Shared::Two(mut first, mut second) = store.share(rt.alloc(), seat, NOTHING) else {
        panic!(rt; "memory is there")
    };
    let Taken::Got = store.take(&mut first, 0) else {
        panic!(rt; "no seat holds the page")
    };
    let Taken::Busy = store.take(&mut second, 0) else {
        panic!(rt; "the first seat holds the page")
    };
    store.give(&mut first, 0);
    let Taken::Got = store.take(&mut second, 0) else {
        panic!(rt; "the page was given")
    };
    Ok(())
}

/// Between stamp and publish the other seat still finds the old word.
#[test]
fn a_seat_meets_words_that_lag(rt: HostRuntime) -> Result<(), Fail> {
    let words = bank(rt.alloc(), &[100, 0])?;
    let moves = Quota {
        commits: 0,
        moves: 1,
        cells: 0,
    };
    let (store, seat) = Store::<Purses>::make(rt.alloc(), words, moves, 0)?;
    let Shared::Two(mut first, mut second) = store.share(rt.alloc(), seat, NOTHING) else {
        panic!(rt; "memory is there")
    };
    assert_eq!(rt;
        glances(&store, &mut first, &mut second, 0, 1),
        Some((100, 99))
    );
    Ok(())
}

/// Two new words of a page, each of which holds its entry's number and was primed before it had one.
#[test]
fn notes_hold_their_numbers(rt: HostRuntime) -> Result<(), Fail> {
    let cells = Quota {
        commits: 0,
        moves: 0,
        cells: 2,
    };
    let (store, mut seat) = Store::<Notes>::make(rt.alloc(), blank_page(rt.alloc())?, cells, 2)?;
    let Some(1) = add_note(&store, &mut seat, 0) else {
        panic!(rt; "the first entry has the number 1")
    };
    assert_eq!(rt; store.clock(&mut seat), 1);
    let Some(2) = add_note(&store, &mut seat, 0) else {
        panic!(rt; "the second has the number 2")
    };
    assert_eq!(rt; store.quota(&seat).cells, 0);
    let found = [
        store.load(&mut seat, 0),
        store.load(&mut seat, 1),
        store.load(&mut seat, 2),
    ];
    assert_eq!(rt; found, [3, LEAST_NOTE + 1, LEAST_NOTE + 2]);
    let closed = store.close(seat);
    assert_eq!(rt; closed.log.len(), 2);
    Ok(())
}
