//! The words of the command line.
use crate::cases::Case;
use std::alloc::Global;
use std::rt::Env;
use std::{env, io};

/// What is to be measured.
#[derive(Clone, Copy, Debug, PartialEq, Eq)]
pub(crate) enum Order {
    /// So many trials of a case.
    Trials(Case, u32),
    /// Nothing.
    Usage,
}

/// The words behind the program's name.
fn words<R: Env + AllocGlobal>(rt: &R) -> io::Result<Vec<String>> {
    let mut words = Vec::new(rt.alloc());
    for word in env::args(rt)?.skip(1) {
        words.push(word)?;
    }
    Ok(words)
}

/// What the words of the command line ask for.
pub(crate) fn read_order<R: Env + AllocGlobal>(rt: &R) -> io::Result<Order> {
    let words = words(rt)?;
    let [kind, rounds] = words.as_slice() else {
        return Ok(Order::Usage);
    };
    let Ok(rounds) = rounds.as_str().parse::<u32>() else {
        return Ok(Order::Usage);
    };
    match kind.as_str() {
        "merge" => Ok(Order::Trials(Case::Merge, rounds)),
        "gen" => Ok(Order::Trials(Case::Gen, rounds)),
        "sum" => Ok(Order::Trials(Case::Sum, rounds)),
        _ => Ok(Order::Usage),
    }
}
