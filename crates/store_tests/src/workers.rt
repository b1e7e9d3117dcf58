ghost use Rattle.std.specs.Prelude.{◌≡◌, ◌+◌, ◌*◌, ◌<◌, ◌≤◌, ◌^◌, length, vec_len, IfSome};
ghost use Rattle.std.specs.List.{All};
ghost use Rattle.word_commit.specs.Shows.{IsSeatOf, view_of, spare_of, given_of};
ghost use Rattle.store_tests.specs.Transfers.{IsAtRest};
ghost use Rattle.store_tests.specs.Workers.{IsReady, IsDone};

use crate::purses::Purses;
use crate::spending::{Tally, spend};
use std::alloc::Global;
use std::thread;
use std::thread::Threads;
use word_commit::{Quota, Seat, Shared, Store};

/// A worker with a seat of its own, the pages between whose purses it moves coins, and what it counted.
#[derive(Drop)]
pub struct Worker {
    pub seat: Seat<Purses>,
    pub from: u32,
    pub to: u32,
    pub tally: Tally,
}

fn work(store: &Store<Purses>, worker: &mut Worker, wanted: u32)
    requires { IsReady store.now wanted worker.old }
    ensures { IsDone store.now wanted worker.new }
{
    worker.tally = spend(store, &mut worker.seat, worker.from, worker.to, wanted);
}

/// Each worker works in a thread of its own.
pub fn work_all<R: Threads + Sync>(
    rt: &R,
    store: &Store<Purses>,
    workers: &mut [Worker],
    wanted: u32,
)
    requires some { 0 < length workers.old }
    requires ready { All (λ w. IsReady store.now wanted w) workers.old }
    ensures done { All (λ w. IsDone store.now wanted w) workers.new }
    ensures len { length workers.new ≡ length workers.old }
{
    let threads = workers.len();
    thread::for_each_mut(
        rt,
        workers,
        threads,
        &|_, worker| work(store, worker, wanted),
    );
}

/// Joins a worker's seat, and adds what it counted.
fn take_in(
    store: &Store<Purses>,
    seat: Seat<Purses>,
    worker: Worker,
    tally: Tally,
    wanted: u32,
) -> (Seat<Purses>, Tally)
    requires seat { IsSeatOf store.now seat }
    requires rest { IsAtRest (view_of seat) }
    requires room { wanted ≤ spare_of seat }
    requires few { tally.done + tally.busy + wanted < 2 ^ 32 }
    requires done { IsDone store.now wanted worker }
    ensures seat { IsSeatOf store.now result.0 }
    ensures rest { IsAtRest (view_of result.0) }
    ensures rights { (view_of result.0).purse.rights ≡ (view_of seat).purse.rights + 1 }
    ensures room { spare_of result.0 + result.1.done ≡ spare_of seat + tally.done }
    ensures few { result.1.done + result.1.busy ≤ tally.done + tally.busy + wanted }
{
    let Worker {
        seat: other,
        from: _,
        to: _,
        tally: more,
    } = worker;
    let seat = store.join(seat, other);
    let tally = Tally {
        done: tally.done + more.done,
        busy: tally.busy + more.busy,
        rising: tally.rising && more.rising,
    };
    (seat, tally)
}

/// Joins all seats, and adds what was counted.
pub fn gather(
    store: &Store<Purses>,
    seat: Seat<Purses>,
    workers: Vec<Worker>,
    wanted: u32,
) -> (Seat<Purses>, Tally)
    requires seat { IsSeatOf store.now seat }
    requires rest { IsAtRest (view_of seat) }
    requires room { vec_len workers * wanted ≤ spare_of seat }
    requires few { vec_len workers * wanted < 2 ^ 32 }
    requires done { All (λ w. IsDone store.now wanted w) workers.items }
    ensures seat { IsSeatOf store.now result.0 }
    ensures rest { IsAtRest (view_of result.0) }
    ensures rights { (view_of result.0).purse.rights ≡ (view_of seat).purse.rights + vec_len workers }
    ensures room { spare_of result.0 + result.1.done ≡ spare_of seat }
    ensures few { result.1.done + result.1.busy ≤ vec_len workers * wanted }
{
    let mut seat = seat;
    let mut workers = workers;
    let mut tally = Tally {
        done: 0,
        busy: 0,
        rising: true,
    };
    while let Some(worker) = workers.pop() {
        (seat, tally) = take_in(store, seat, worker, tally, wanted);
    }
    workers.destroy_empty();
    (seat, tally)
}
