//! What steps on the shared store take: nanoseconds by one seat and by four at once, and the memory of many entries.
#![tactic(auto)]

mod args;
mod counts;
mod entries;
mod rounds;
mod spells;
mod steps;
mod stores;
mod workers;

use anyhow::Result;
use args::{Order, read_order};
use entries::print_entries;
use steps::print_steps;

fn main(rt: HostRuntime) -> Result<()> {
    match read_order(&rt)? {
        Order::Steps(rounds) => print_steps(&rt, rounds),
        Order::Entries(entries) => print_entries(&rt, entries),
        Order::Usage => {
            println!(rt; "store_bench steps ROUNDS, or store_bench entries COUNT")?;
            Ok(())
        }
    }
}
