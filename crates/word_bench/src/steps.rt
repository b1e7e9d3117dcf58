//! The steps of tries, measured.
ghost use Rattle.std.specs.Prelude.{◌≡◌, ℕ, ◌+◌, ◌^◌, ◌<◌, true, IfOk};
ghost use Rattle.heap_words.specs.Heaps.{IsHeap, is_inside};

use crate::laid::{are_inside, laid_text};
use crate::stopwatch::print_each;
use crate::tries::{add_bound, bind_anew, look_again, look_anew, unify_anew};
use anyhow::{Result, bail};
use guard_tests::Evaluated;
use heap_words::{PlainHeap, Trail, Words};
use std::alloc::{AllocError, Global};
use std::rt::Clock;
use std::time::Instant;

/// The addresses that are looked at and bound: most of the second page.
const FIRST: u32 = 1024;

const COUNT: u32 = 1000;

/// The elements of the two lists.
const ELEMENTS: u32 = 1000;

/// The words before the first argument of a process.
const BEFORE_ARGUMENTS: u32 = 4;

/// The arguments of the measured process: two equal lists, two equal numbers, a variable, the number that it is bound to, and one.
const ARGUMENTS: u32 = 7;

/// The most bytes of the goal, and the highest address of its process.
const MOST_BYTES: usize = 65_536;

const MOST_ADDRESS: u32 = 1_000_000;

/// The pages of the heap.
const PAGES: u32 = 8;

/// The numbers from 1 on, between commas.
fn push_numbers(text: &mut String) -> std::result::Result<(), AllocError> {
    for number in 1..ELEMENTS {
        write!(text, "{number},")?;
    }
    write!(text, "{ELEMENTS}")?;
    Ok(())
}

/// The text of the goal.
fn goal_text(alloc: Global) -> std::result::Result<String, AllocError> {
    let mut text = String::new(alloc);
    text.push_str("p([")?;
    push_numbers(&mut text)?;
    text.push_str("],[")?;
    push_numbers(&mut text)?;
    text.push_str("],7,7,X,41,1)")?;
    Ok(text)
}

/// Measures looks and bindings.
fn print_trail<R: Clock + Print + AllocGlobal, W: Words>(
    rt: &R,
    words: &mut W,
    rounds: u32,
) -> Result<()>
    requires sound { W.sound words.old }
    requires known { (k : ℕ) → k < 1000 → W.knows words.old (1024 + k) }
{
    let mut trail = Trail::make(rt.alloc())?;
    let times = u64::from(rounds) * u64::from(COUNT);
    let start = Instant::now(rt)?;
    let seen = look_anew(&mut trail, words, FIRST, COUNT, rounds)?;
    print_each(rt, "look at a word that is not kept", start, times)?;
    let start = Instant::now(rt)?;
    let seen_again = look_again(&mut trail, words, FIRST, COUNT, rounds)?;
    print_each(rt, "look at a word that is kept", start, times)?;
    if seen != seen_again {
        bail!("looks gave other words");
    }
    let start = Instant::now(rt)?;
    bind_anew(&mut trail, FIRST, COUNT, 0, rounds)?;
    print_each(rt, "bind", start, times)
}

/// Measures one unification of the words at two addresses.
fn print_unify<R: Clock + Print + AllocGlobal, W: Words>(
    rt: &R,
    what: &str,
    words: &mut W,
    first: u32,
    second: u32,
    rounds: u32,
) -> Result<()>
    requires sound { W.sound words.old }
    requires known { W.knows words.old first }
    requires also { W.knows words.old second }
{
    let start = Instant::now(rt)?;
    let unified = unify_anew(rt.alloc(), words, first, second, rounds)?;
    print_each(rt, what, start, u64::from(rounds))?;
    if !unified {
        bail!("equal terms were not unified");
    }
    Ok(())
}

/// Measures the value of a variable and one.
fn print_sum<R: Clock + Print + AllocGlobal, W: Words>(
    rt: &R,
    words: &mut W,
    variable: u32,
    rounds: u32,
) -> Result<()>
    requires few { variable + 2 < 2 ^ 32 }
    requires sound { W.sound words.old }
    requires variable { W.knows words.old variable }
    requires value { W.knows words.old (variable + 1) }
    requires number { W.knows words.old (variable + 2) }
{
    let start = Instant::now(rt)?;
    let sum = add_bound(
        rt.alloc(),
        words,
        variable,
        variable + 1,
        variable + 2,
        rounds,
    )?;
    print_each(rt, "evaluate X + 1", start, u64::from(rounds))?;
    if rounds > 0 && sum != Evaluated::Value(42) {
        bail!("the sum is another one");
    }
    Ok(())
}

/// The words of the measured goal, and the address of its process's first argument.
fn measured(alloc: Global) -> Result<(Vec<u64>, u32)>
    ensures heap { IfOk result (λ m. IsHeap m.0.items) }
    ensures looked { IfOk result (λ m. (k : ℕ) → k < 1000 → is_inside m.0.items (1024 + k) ≡ true) }
    ensures arguments { IfOk result (λ m. (k : ℕ) → k < 7 → is_inside m.0.items (m.1 + k) ≡ true) }
    ensures few { IfOk result (λ m. m.1 + 7 < 2 ^ 32) }
{
    let text = goal_text(alloc)?;
    let goal = text.as_str().as_bytes();
    if goal.len() > MOST_BYTES {
        bail!("the goal is too long");
    }
    let Some((words, process)) = laid_text(alloc, b"p(a,a,a,a,a,a,a).", goal, PAGES)? else {
        bail!("no room for the goal");
    };
    if process > MOST_ADDRESS {
        bail!("the process lies too high");
    }
    let first = process + BEFORE_ARGUMENTS;
    if !are_inside(words.as_slice(), FIRST, COUNT) {
        bail!("the lists lie elsewhere");
    }
    if !are_inside(words.as_slice(), first, ARGUMENTS) {
        bail!("the arguments lie elsewhere");
    }
    Ok((words, first))
}

/// Prints the nanoseconds of each step, over so many rounds.
pub(crate) fn print_steps<R: Clock + Print + AllocGlobal>(rt: &R, rounds: u32) -> Result<()> {
    let (words, _first) = measured(rt.alloc())?;
    let mut heap = PlainHeap::of_words(words);
    print_trail(rt, &mut heap, rounds)?;
    let (words, first) = measured(rt.alloc())?;
    let mut heap = PlainHeap::of_words(words);
    let what = "unify two constants";
    print_unify(rt, what, &mut heap, first + 2, first + 3, rounds)?;
    let (words, first) = measured(rt.alloc())?;
    let mut heap = PlainHeap::of_words(words);
    let what = "unify two lists of 1000 numbers";
    print_unify(rt, what, &mut heap, first, first + 1, rounds)?;
    let (words, first) = measured(rt.alloc())?;
    let mut heap = PlainHeap::of_words(words);
    print_sum(rt, &mut heap, first + 4, rounds)
}
