//! The steps of seats, measured.
ghost use Rattle.std.specs.Prelude.{◌+◌, ◌*◌, ◌<◌, ◌≤◌};

use crate::stores::{Plan, hire_all, make_store};
use crate::workers::{Step, Worker, work_all};
use anyhow::{Result, bail};
use std::rt::Clock;
use std::thread::Threads;
use std::time::Instant;

/// The most rounds of a step.
pub(crate) const MOST_ROUNDS: u32 = 100_000_000;

/// The pages of each store.
const PAGES: u32 = 64;

/// The entries that are made in a page before it is given, where that is done seldom.
const MANY: u32 = 1000;

/// What all workers counted: rounds, takes that met Busy, and the sum of the words that were loaded.
fn totals(workers: &[Worker]) -> (u64, u64, u64) {
    let mut rounds = 0u64;
    let mut busy = 0u64;
    let mut sum = 0u64;
    for worker in workers {
        rounds = rounds.wrapping_add(u64::from(worker.tally.done));
        busy = busy.wrapping_add(worker.tally.busy);
        sum = sum.wrapping_add(worker.tally.sum);
    }
    (rounds, busy, sum)
}

/// Prints nanoseconds for each round of a worker, and for all workers together the takes that met Busy.
fn print_times<R: Print + AllocGlobal>(
    rt: &R,
    what: &str,
    plan: &str,
    nanos: u128,
    rounds: u32,
    busy: u64,
) -> Result<()> {
    if rounds == 0 {
        return Ok(());
    }
    let tenths = nanos.saturating_mul(10) / u128::from(rounds);
    println!(rt;
        "{what}, {plan}: {}.{} ns, {busy} busy",
        tenths / 10,
        tenths % 10
    )?;
    Ok(())
}

/// Measures a step by the workers of a plan, on a store of its own.
fn print_plan<R: Clock + Print + Threads + Sync + AllocGlobal>(
    rt: &R,
    what: &str,
    name: &str,
    plan: Plan,
    step: Step,
    rounds: u32,
) -> Result<()>
    requires seats { (0 < plan.seats) × (plan.seats ≤ 4) }
    requires pages { (0 < plan.spread) × (plan.seats * plan.gap + plan.spread ≤ 64 + plan.gap) }
    requires rounds { rounds ≤ 100000000 }
{
    let all = plan.seats * rounds;
    let Ok((store, seat)) = make_store(rt.alloc(), PAGES, all) else {
        bail!("out of memory");
    };
    let Ok((mut seat, mut workers)) = hire_all(&store, rt.alloc(), seat, plan, rounds) else {
        bail!("out of memory");
    };
    let start = Instant::now(rt)?;
    work_all(rt, &store, workers.as_mut_slice(), step, rounds);
    let nanos = start.elapsed(rt)?.as_nanos();
    let (done, busy, sum) = totals(workers.as_slice());
    let entries = match step {
        Step::Entry(_) => done,
        Step::Load | Step::Hold => 0,
    };
    if done != u64::from(all) || store.clock(&mut seat) != entries || sum != 0 {
        bail!("another number of rounds");
    }
    print_times(rt, what, name, nanos, rounds, busy)
}

/// Measures a step by one seat and by four, on one page and on four, which lie side by side or far apart.
fn print_step<R: Clock + Print + Threads + Sync + AllocGlobal>(
    rt: &R,
    what: &str,
    step: Step,
    rounds: u32,
) -> Result<()>
    requires { rounds ≤ 100000000 }
{
    let one = Plan {
        seats: 1,
        spread: 1,
        gap: 0,
    };
    print_plan(rt, what, "1 seat, 1 page", one, step, rounds)?;
    let round = Plan {
        seats: 1,
        spread: 4,
        gap: 0,
    };
    print_plan(rt, what, "1 seat, 4 pages in turn", round, step, rounds)?;
    let crowd = Plan {
        seats: 4,
        spread: 1,
        gap: 0,
    };
    print_plan(rt, what, "4 seats, 1 page", crowd, step, rounds)?;
    let ring = Plan {
        seats: 4,
        spread: 4,
        gap: 0,
    };
    print_plan(rt, what, "4 seats, 4 pages in turn", ring, step, rounds)?;
    let apart = Plan {
        seats: 4,
        spread: 1,
        gap: 1,
    };
    print_plan(rt, what, "4 seats, a page each", apart, step, rounds)?;
    let far = Plan {
        seats: 4,
        spread: 1,
        gap: 16,
    };
    print_plan(
        rt,
        what,
        "4 seats, a page each, far apart",
        far,
        step,
        rounds,
    )
}

/// Prints what each step takes.
pub(crate) fn print_steps<R: Clock + Print + Threads + Sync + AllocGlobal>(
    rt: &R,
    rounds: u32,
) -> Result<()> {
    if rounds > MOST_ROUNDS {
        bail!("too many rounds");
    }
    print_step(rt, "load", Step::Load, rounds)?;
    print_step(rt, "take and give", Step::Hold, rounds)?;
    print_step(rt, "take, stamp, publish, give", Step::Entry(1), rounds)?;
    print_step(rt, "stamp and publish", Step::Entry(MANY), rounds)
}
