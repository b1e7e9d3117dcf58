ghost use Rattle.std.specs.Prelude.{◌≡◌, ◌≢◌, ◌+◌, ◌*◌, ◌<◌, ◌≤◌, ◌^◌, length, vec_len, IfSome};
ghost use Rattle.std.specs.List.{All};
ghost use Rattle.word_commit.specs.Shows.{IsSeatOf, view_of, spare_of, given_of};
ghost use Rattle.store_tests.specs.Transfers.{IsAtRest};
ghost use Rattle.store_tests.specs.Workers.{IsReady, IsDone};

use crate::banks::bank;
use crate::purses::{Purses, Transfer};
use crate::spending::{Tally, spend};
use crate::workers::{Worker, gather, work_all};
use std::alloc::Global;
use std::thread::Threads;
use word_commit::{Closed, Quota, Seat, Shared, Store};

/// A worker on a seat that is shared for it.
fn hire(
    store: &Store<Purses>,
    alloc: Global,
    seat: Seat<Purses>,
    from: u32,
    to: u32,
    wanted: u32,
) -> Option<(Seat<Purses>, Worker)>
    requires seat { IsSeatOf store.now seat }
    requires rest { IsAtRest (view_of seat) }
    requires pages { (from < (given_of store.now).pages) × (to < (given_of store.now).pages) × (to ≢ from) }
    requires rights { 1 < (view_of seat).purse.rights }
    requires moves { wanted ≤ (view_of seat).purse.moves }
    ensures seat { IfSome result (λ r. IsSeatOf store.now r.0) }
    ensures rest { IfSome result (λ r. IsAtRest (view_of r.0)) }
    ensures rights { IfSome result (λ r. (view_of r.0).purse.rights + 1 ≡ (view_of seat).purse.rights) }
    ensures moves { IfSome result (λ r. (view_of r.0).purse.moves + wanted ≡ (view_of seat).purse.moves) }
    ensures room { IfSome result (λ r. spare_of r.0 ≡ spare_of seat) }
    ensures ready { IfSome result (λ r. IsReady store.now wanted r.1) }
{
    let quota = Quota {
        commits: 0,
        moves: wanted,
        cells: 0,
    };
    match store.share(alloc, seat, quota) {
        Shared::NoMemory(_) => None,
        Shared::Two(seat, other) => {
            let worker = Worker {
                seat: other,
                from,
                to,
                tally: Tally {
                    done: 0,
                    busy: 0,
                    rising: true,
                },
            };
            Some((seat, worker))
        }
    }
}

/// A worker for each pair of pages.
fn hire_all(
    store: &Store<Purses>,
    alloc: Global,
    seat: Seat<Purses>,
    plan: &[(u32, u32)],
    wanted: u32,
) -> Option<(Seat<Purses>, Vec<Worker>)>
    requires seat { IsSeatOf store.now seat }
    requires rest { IsAtRest (view_of seat) }
    requires rights { length plan.now < (view_of seat).purse.rights }
    ensures seat { IfSome result (λ r. IsSeatOf store.now r.0) }
    ensures rest { IfSome result (λ r. IsAtRest (view_of r.0)) }
    ensures rights { IfSome result (λ r. (view_of r.0).purse.rights + length plan.now ≡ (view_of seat).purse.rights) }
    ensures room { IfSome result (λ r. spare_of r.0 ≡ spare_of seat) }
    ensures len { IfSome result (λ r. vec_len r.1 ≡ length plan.now) }
    ensures ready { IfSome result (λ r. All (λ w. IsReady store.now wanted w) r.1.items) }
{
    let pages = store.pages();
    let mut seat = seat;
    let Ok(mut workers) = Vec::with_capacity(alloc, plan.len()) else {
        return None;
    };
    for pair in plan {
        let (from, to) = *pair;
        if from >= pages || to >= pages || to == from || store.quota(&seat).moves < wanted {
            return None;
        }
        let Some((rest, worker)) = hire(store, alloc, seat, from, to, wanted) else {
            return None;
        };
        seat = rest;
        workers.push_reserved(worker);
    }
    Some((seat, workers))
}

/// What a run left, what its workers counted, and what the caller made after them.
#[derive(Drop)]
pub struct Finish {
    pub closed: Closed<Transfer>,
    pub tally: Tally,
    pub rest: Tally,
}

/// A bank with these coins; a worker in a thread of its own for each pair of pages, which tries so many transfers; and after
/// all are joined as many by the caller as met a page in another seat's hand, between the pages of the first pair.
pub fn purse_run<R: Threads + Sync>(
    rt: &R,
    alloc: Global,
    coins: &[u64],
    plan: &[(u32, u32)],
    wanted: u32,
) -> Option<Finish>
    requires coins { length coins.now ≤ 3906250 }
    requires plan { (0 < length plan.now) × (length plan.now ≤ 1000) }
    requires wanted { wanted ≤ 1000 }
    ensures alone { IfSome result (λ f. f.rest.busy ≡ 0) }
    ensures few { IfSome result (λ f. f.tally.done + f.tally.busy ≤ length plan.now * wanted) }
{
    let Ok(words) = bank(alloc, coins) else {
        return None;
    };
    let quota = Quota {
        commits: 0,
        moves: plan.len() as u32 * wanted,
        cells: 0,
    };
    let Ok((store, seat)) = Store::<Purses>::make(alloc, words, quota, 0) else {
        return None;
    };
    let (seat, mut workers) = hire_all(&store, alloc, seat, plan, wanted)?;
    work_all(rt, &store, workers.as_mut_slice(), wanted);
    let (mut seat, tally) = gather(&store, seat, workers, wanted);
    let (from, to) = plan[0];
    let left = tally.busy.min(store.quota(&seat).moves);
    if from >= store.pages() || to >= store.pages() || to == from {
        return None;
    }
    let rest = spend(&store, &mut seat, from, to, left);
    Some(Finish {
        closed: store.close(seat),
        tally,
        rest,
    })
}
