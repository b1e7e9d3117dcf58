//! The steps of tries, repeated, over any words that can be loaded.
ghost use Rattle.std.specs.Prelude.{◌≡◌, ℕ, ◌+◌, ◌^◌, ◌<◌, [], OnOk};
ghost use Rattle.heap_words.specs.Trails.{Holds};
ghost use Rattle.ro_unify.specs.Walks.{Tame};

use fcp_model::{ArithOp, NoMemory};
use guard_tests::{Evaluated, TestLists, evaluate};
use heap_words::{ExprStep, Trail, Words};
use ro_unify::{Unified, WorkLists, unify};
use std::alloc::Global;

/// Looks at so many addresses from the first on. The words are put together, so that each is looked at.
fn look_all<W: Words>(
    trail: &mut Trail,
    words: &mut W,
    first: u32,
    count: u32,
) -> Result<u64, NoMemory>
    requires sound { W.sound words.old }
    requires holds { Holds W.had W.leads trail.old.kept trail.old.binds words.old }
    requires few { first + count < 2 ^ 32 }
    requires known { (k : ℕ) → k < count → W.knows words.old (first + k) }
    ensures between { W.later words.old words.new }
    ensures holds { OnOk result (Holds W.had W.leads trail.new.kept trail.new.binds words.new) }
{
    let mut seen = 0;
    for k in 0..count {
        let word = trail.look(words, first + k)?;
        seen ^= word;
    }
    Ok(seen)
}

/// Rounds of looks with a new trail each, so that each address is loaded and kept.
pub(crate) fn look_anew<W: Words>(
    trail: &mut Trail,
    words: &mut W,
    first: u32,
    count: u32,
    rounds: u32,
) -> Result<u64, NoMemory>
    requires sound { W.sound words.old }
    requires few { first + count < 2 ^ 32 }
    requires known { (k : ℕ) → k < count → W.knows words.old (first + k) }
    ensures between { W.later words.old words.new }
{
    let mut seen = 0;
    for _ in 0..rounds {
        trail.clear();
        let word = look_all(trail, words, first, count)?;
        seen ^= word;
    }
    Ok(seen)
}

/// Rounds of looks with one trail, which keeps the words from the first round on.
pub(crate) fn look_again<W: Words>(
    trail: &mut Trail,
    words: &mut W,
    first: u32,
    count: u32,
    rounds: u32,
) -> Result<u64, NoMemory>
    requires sound { W.sound words.old }
    requires few { first + count < 2 ^ 32 }
    requires known { (k : ℕ) → k < count → W.knows words.old (first + k) }
    ensures between { W.later words.old words.new }
{
    let mut seen = 0;
    trail.clear();
    for _ in 0..rounds {
        let word = look_all(trail, words, first, count)?;
        seen ^= word;
    }
    Ok(seen)
}

/// Binds so many addresses from the first on.
fn bind_all(trail: &mut Trail, first: u32, count: u32, word: u64) -> Result<(), NoMemory>
    requires none { trail.old.binds ≡ [] }
    requires few { first + count < 2 ^ 32 }
{
    for k in 0..count {
        trail.bind(first + k, word)?;
    }
    Ok(())
}

/// Rounds of bindings with a new trail each.
pub(crate) fn bind_anew(
    trail: &mut Trail,
    first: u32,
    count: u32,
    word: u64,
    rounds: u32,
) -> Result<(), NoMemory>
    requires { first + count < 2 ^ 32 }
{
    for _ in 0..rounds {
        trail.clear();
        bind_all(trail, first, count, word)?;
    }
    Ok(())
}

/// Unifies two words with a new trail.
fn unify_once<W: Words>(
    lists: &mut WorkLists,
    trail: &mut Trail,
    words: &mut W,
    left: u64,
    right: u64,
) -> Result<Unified, NoMemory>
    requires sound { W.sound words.old }
    requires leads { W.leads words.old left }
    requires also { W.leads words.old right }
    ensures between { W.later words.old words.new }
    ensures holds { OnOk result (Holds W.had W.leads trail.new.kept trail.new.binds words.new) }
    ensures tame { OnOk result (Tame trail.new.binds trail.new.kept (W.own words.new) (W.addresses words.new)) }
{
    trail.clear();
    let end = unify(lists, trail, words, [(left, right)].as_slice())?;
    Ok(end)
}

/// Rounds of unifying two words with a new trail each: whether they all were unified.
fn unify_rounds<W: Words>(
    lists: &mut WorkLists,
    trail: &mut Trail,
    words: &mut W,
    left: u64,
    right: u64,
    rounds: u32,
) -> Result<bool, NoMemory>
    requires sound { W.sound words.old }
    requires leads { W.leads words.old left }
    requires also { W.leads words.old right }
    ensures between { W.later words.old words.new }
{
    let mut unified = true;
    for _ in 0..rounds {
        let end = unify_once(lists, trail, words, left, right)?;
        unified = unified && end == Unified::Done;
    }
    Ok(unified)
}

/// Rounds of unifying the words at two addresses with a new trail each: whether they all were unified.
pub(crate) fn unify_anew<W: Words>(
    alloc: Global,
    words: &mut W,
    first: u32,
    second: u32,
    rounds: u32,
) -> Result<bool, NoMemory>
    requires sound { W.sound words.old }
    requires known { W.knows words.old first }
    requires also { W.knows words.old second }
{
    let mut trail = Trail::make(alloc)?;
    let mut lists = WorkLists::make(alloc);
    let left = words.load(first);
    let right = words.load(second);
    let unified = unify_rounds(&mut lists, &mut trail, words, left, right, rounds)?;
    Ok(unified)
}

/// Rounds of the sum of two words under one trail: the last value, and `Bad` where there was no round.
fn add_again<W: Words>(
    lists: &mut TestLists,
    trail: &mut Trail,
    words: &mut W,
    left: u64,
    right: u64,
    rounds: u32,
) -> Result<Evaluated, NoMemory>
    requires sound { W.sound words.old }
    requires holds { Holds W.had W.leads trail.old.kept trail.old.binds words.old }
    requires leads { W.leads words.old left }
    requires also { W.leads words.old right }
    requires tame { Tame trail.old.binds trail.old.kept (W.own words.old) (W.addresses words.old) }
    ensures between { W.later words.old words.new }
{
    let mut value = Evaluated::Bad;
    for _ in 0..rounds {
        let sum = evaluate(
            lists,
            trail,
            words,
            [
                ExprStep::Push(left),
                ExprStep::Push(right),
                ExprStep::Apply(ArithOp::Add),
            ]
            .as_slice(),
        )?;
        value = sum;
    }
    Ok(value)
}

/// Rounds of the sum of a variable and a number, by their addresses. The variable is bound once before, to the word at `value`.
pub(crate) fn add_bound<W: Words>(
    alloc: Global,
    words: &mut W,
    variable: u32,
    value: u32,
    number: u32,
    rounds: u32,
) -> Result<Evaluated, NoMemory>
    requires sound { W.sound words.old }
    requires variable { W.knows words.old variable }
    requires value { W.knows words.old value }
    requires number { W.knows words.old number }
{
    let mut trail = Trail::make(alloc)?;
    let mut pairs = WorkLists::make(alloc);
    let mut lists = TestLists::make(alloc);
    let left = words.load(variable);
    let bound = words.load(value);
    let right = words.load(number);
    unify_once(&mut pairs, &mut trail, words, left, bound)?;
    let sum = add_again(&mut lists, &mut trail, words, left, right, rounds)?;
    Ok(sum)
}
