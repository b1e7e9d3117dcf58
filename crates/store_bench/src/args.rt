//! The words of the command line.
use std::alloc::Global;
use std::rt::Env;
use std::{env, io};

/// What is to be measured.
#[derive(Clone, Copy, Debug, PartialEq, Eq)]
pub(crate) enum Order {
    /// The steps of seats, so many rounds of each.
    Steps(u32),
    /// So many entries.
    Entries(u32),
    /// Nothing.
    Usage,
}

/// The first words behind the program's name.
fn words<R: Env + AllocGlobal>(rt: &R) -> io::Result<Vec<String>> {
    let mut words = Vec::new(rt.alloc());
    for word in env::args(rt)?.skip(1) {
        words.push(word)?;
    }
    Ok(words)
}

/// What the words of the command line ask for.
pub(crate) fn read_order<R: Env + AllocGlobal>(rt: &R) -> io::Result<Order> {
    let words = words(rt)?;
    let [kind, count] = words.as_slice() else {
        return Ok(Order::Usage);
    };
    let Ok(count) = count.as_str().parse::<u32>() else {
        return Ok(Order::Usage);
    };
    match kind.as_str() {
        "steps" => Ok(Order::Steps(count)),
        "entries" => Ok(Order::Entries(count)),
        _ => Ok(Order::Usage),
    }
}
