//! What a trial costs: nanoseconds of one, on a heap that was prepared.
#![tactic(auto)]

mod args;
mod cases;
mod trials;

use anyhow::Result;
use args::{Order, read_order};
use trials::print_trials;

fn main(rt: HostRuntime) -> Result<()> {
    match read_order(&rt)? {
        Order::Trials(case, rounds) => print_trials(&rt, case, rounds),
        Order::Usage => {
            println!(rt; "trial_bench merge|gen|sum ROUNDS")?;
            Ok(())
        }
    }
}
