//! Seats at work, each in a thread of its own.
ghost use Rattle.std.specs.Prelude.{◌<◌, length};
ghost use Rattle.std.specs.List.{All};
ghost use Rattle.store_bench.specs.Workers.{IsReady};

use crate::counts::Counts;
use crate::rounds::{Ring, Tally, count_all, hold_all, load_all};
use std::thread;
use std::thread::Threads;
use word_commit::{Seat, Store};

/// What is done in each round.
#[derive(Clone, Copy, Debug, PartialEq, Eq)]
pub(crate) enum Step {
    /// A load.
    Load,
    /// A take that got its page, and the give.
    Hold,
    /// An entry; a page is given after so many.
    Entry(u32),
}

/// A worker with a seat of its own, the pages which it goes round, and what it counted.
#[derive(Drop)]
pub(crate) struct Worker {
    pub seat: Seat<Counts>,
    pub ring: Ring,
    pub tally: Tally,
}

fn work(store: &Store<Counts>, worker: &mut Worker, step: Step, rounds: u32)
    requires { IsReady store.now rounds worker.old }
{
    worker.tally = match step {
        Step::Load => load_all(store, &mut worker.seat, worker.ring, rounds),
        Step::Hold => hold_all(store, &mut worker.seat, worker.ring, rounds),
        Step::Entry(entries) => { count_all(store, &mut worker.seat, worker.ring, rounds, entries) }
    };
}

/// Each worker works in a thread of its own, until it did so many rounds.
pub(crate) fn work_all<R: Threads + Sync>(
    rt: &R,
    store: &Store<Counts>,
    workers: &mut [Worker],
    step: Step,
    rounds: u32,
)
    requires some { 0 < length workers.old }
    requires ready { All (λ w. IsReady store.now rounds w) workers.old }
{
    let threads = workers.len();
    thread::for_each_mut(
        rt,
        workers,
        threads,
        &|_, worker| work(store, worker, step, rounds),
    );
}
