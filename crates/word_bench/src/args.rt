//! The words of the command line.
use std::alloc::Global;
use std::rt::Env;
use std::{env, io};

/// What is to be measured.
#[derive(Drop)]
pub(crate) enum Order {
    /// The steps of tries, so many rounds of each.
    Steps(u32),
    /// The compiling of a file's module.
    Compile(String),
    /// Nothing.
    Usage,
}

/// The first words behind the program's name.
fn words<R: Env + AllocGlobal>(rt: &R) -> io::Result<Vec<String>> {
    let mut words = Vec::new(rt.alloc());
    for word in env::args(rt)?.skip(1) {
        words.push(word)?;
    }
    Ok(words)
}

/// What the words of the command line ask for.
pub(crate) fn read_order<R: Env + AllocGlobal>(rt: &R) -> io::Result<Order> {
    let words = words(rt)?;
    let [kind, what] = words.as_slice() else {
        return Ok(Order::Usage);
    };
    match kind.as_str() {
        "words" => match what.as_str().parse::<u32>() {
            Ok(rounds) => Ok(Order::Steps(rounds)),
            Err(_) => Ok(Order::Usage),
        },
        "compile" => Ok(Order::Compile(what.clone()?)),
        _ => Ok(Order::Usage),
    }
}
