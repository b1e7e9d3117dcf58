//! What words and code cost: nanoseconds of a try's steps, and seconds to read, load and compile a module.
#![tactic(auto)]

mod args;
mod compiling;
mod laid;
mod steps;
mod stopwatch;
mod tries;

use anyhow::Result;
use args::{Order, read_order};
use compiling::print_compile;
use steps::print_steps;

fn main(rt: HostRuntime) -> Result<()> {
    match read_order(&rt)? {
        Order::Steps(rounds) => print_steps(&rt, rounds),
        Order::Compile(file) => print_compile(&rt, file.as_str()),
        Order::Usage => {
            println!(rt; "word_bench words ROUNDS, or word_bench compile FILE")?;
            Ok(())
        }
    }
}
