//! Stores to be measured, and the seats on them.
ghost use Rattle.std.specs.Prelude.{◌≡◌, ◌+◌, ◌*◌, ◌<◌, ◌≤◌, ◌^◌, length, vec_len, IfOk};
ghost use Rattle.std.specs.List.{All};
ghost use Rattle.word_commit.specs.Openings.{MayOpen};
ghost use Rattle.word_commit.specs.Shows.{IsSeatOf, view_of, spare_of, given_of};
ghost use Rattle.word_commit.specs.Views.{all_rights};
ghost use Rattle.store_bench.specs.Counts.{count_words};
ghost use Rattle.store_bench.specs.Spells.{IsAtRest};
ghost use Rattle.store_bench.specs.Workers.{IsReady};

use crate::counts::Counts;
use crate::rounds::{Ring, Tally};
use crate::workers::Worker;
use fcp_model::NoMemory;
use std::alloc::Global;
use word_commit::{Quota, Seat, Shared, Store};

const PAGE: usize = 1024;

/// How many seats work, how many pages each goes round, and how many pages after the one before it each begins.
#[derive(Clone, Copy, Debug, PartialEq, Eq)]
pub(crate) struct Plan {
    pub seats: u32,
    pub spread: u32,
    pub gap: u32,
}

/// So many full pages, whose words are 0 but for the tops.
fn full_pages(alloc: Global, pages: usize) -> Result<Vec<u64>, NoMemory>
    requires { pages ≤ 3906250 }
    ensures words { IfOk result (λ w. MayOpen count_words w.items) }
    ensures len { IfOk result (λ w. vec_len w ≡ 1024 * pages) }
{
    let Ok(mut words) = Vec::from_elem(alloc, 0u64, PAGE * pages) else {
        return Err(NoMemory);
    };
    for page in 0..pages {
        words[PAGE * page] = (PAGE * page + PAGE) as u64;
    }
    Ok(words)
}

/// A store of full pages, and its first seat, which may make so many entries.
pub(crate) fn make_store(
    alloc: Global,
    pages: u32,
    entries: u32,
) -> Result<(Store<Counts>, Seat<Counts>), NoMemory>
    requires { pages ≤ 3906250 }
    ensures pages { IfOk result (λ r. (given_of r.0).pages ≡ pages) }
    ensures seat { IfOk result (λ r. IsSeatOf r.0 r.1) }
    ensures rest { IfOk result (λ r. IsAtRest (view_of r.1)) }
    ensures rights { IfOk result (λ r. (view_of r.1).purse.rights ≡ all_rights) }
    ensures funds { IfOk result (λ r. ((view_of r.1).purse.moves ≡ entries) × (spare_of r.1 ≡ entries)) }
{
    let words = full_pages(alloc, pages as usize)?;
    let quota = Quota {
        commits: 0,
        moves: entries,
        cells: 0,
    };
    Store::<Counts>::make(alloc, words, quota, 0)
}

/// A worker on a seat that is shared for it.
fn hire(
    store: &Store<Counts>,
    alloc: Global,
    seat: Seat<Counts>,
    ring: Ring,
    rounds: u32,
) -> Result<(Seat<Counts>, Worker), NoMemory>
    requires seat { IsSeatOf store.now seat }
    requires rest { IsAtRest (view_of seat) }
    requires ring { (0 < ring.spread) × (ring.first + ring.spread ≤ (given_of store.now).pages) }
    requires rights { 1 < (view_of seat).purse.rights }
    requires moves { rounds ≤ (view_of seat).purse.moves }
    ensures seat { IfOk result (λ r. IsSeatOf store.now r.0) }
    ensures rest { IfOk result (λ r. IsAtRest (view_of r.0)) }
    ensures rights { IfOk result (λ r. (view_of r.0).purse.rights + 1 ≡ (view_of seat).purse.rights) }
    ensures moves { IfOk result (λ r. (view_of r.0).purse.moves + rounds ≡ (view_of seat).purse.moves) }
    ensures ready { IfOk result (λ r. IsReady store.now rounds r.1) }
{
    let quota = Quota {
        commits: 0,
        moves: rounds,
        cells: 0,
    };
    match store.share(alloc, seat, quota) {
        Shared::NoMemory(_) => Err(NoMemory),
        Shared::Two(seat, other) => {
            let worker = Worker {
                seat: other,
                ring,
                tally: Tally {
                    done: 0,
                    busy: 0,
                    sum: 0,
                },
            };
            Ok((seat, worker))
        }
    }
}

/// The workers of a plan, each with a quota for so many rounds.
pub(crate) fn hire_all(
    store: &Store<Counts>,
    alloc: Global,
    seat: Seat<Counts>,
    plan: Plan,
    rounds: u32,
) -> Result<(Seat<Counts>, Vec<Worker>), NoMemory>
    requires seat { IsSeatOf store.now seat }
    requires rest { IsAtRest (view_of seat) }
    requires pages { (0 < plan.spread) × (plan.seats * plan.gap + plan.spread ≤ (given_of store.now).pages + plan.gap) }
    requires rights { plan.seats < (view_of seat).purse.rights }
    requires moves { plan.seats * rounds ≤ (view_of seat).purse.moves }
    ensures seat { IfOk result (λ r. IsSeatOf store.now r.0) }
    ensures len { IfOk result (λ r. vec_len r.1 ≡ plan.seats) }
    ensures ready { IfOk result (λ r. All (λ w. IsReady store.now rounds w) r.1.items) }
{
    let _pages = store.pages();
    let Ok(mut workers) = Vec::with_capacity(alloc, plan.seats as usize) else {
        return Err(NoMemory);
    };
    let mut seat = seat;
    for place in 0..plan.seats {
        let ring = Ring {
            first: place * plan.gap,
            spread: plan.spread,
        };
        let (rest, worker) = hire(store, alloc, seat, ring, rounds)?;
        seat = rest;
        workers.push_reserved(worker);
    }
    Ok((seat, workers))
}
