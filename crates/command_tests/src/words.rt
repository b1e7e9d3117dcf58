//! Lines of words with what they ask for.
use command_words::{Order, WordFault, read_words};
use std::alloc::Global;
use std::test::Fail;

/// Lines that ask for something, each with the command, the positional words, and the values of `--commits`, `--moves`, `--cells`
/// and `--control` as they were written, or `-`.
const READ: &[(&str, &str)] = &[
    ("run f p", "run f p - - - -"),
    ("show f", "show f"),
    ("run --commits 5 f p", "run f p 5 - - -"),
    ("run f --commits 5 p", "run f p 5 - - -"),
    ("run f p --commits 5", "run f p 5 - - -"),
    ("run --moves=7 f p", "run f p - 7 - -"),
    ("run f --moves=7 p", "run f p - 7 - -"),
    ("run f p --moves=7", "run f p - 7 - -"),
    ("run --cells 1 --moves 2 --commits 3 f p", "run f p 3 2 1 -"),
    ("run --cells=1 f --moves 2 p --commits=3", "run f p 3 2 1 -"),
    ("run f p --commits=005 --moves 0", "run f p 005 0 - -"),
    ("run f p --cells=64000000", "run f p - - 64000000 -"),
    ("run f p --commits 00000005", "run f p 00000005 - - -"),
    ("run run show", "run run show - - - -"),
    ("show show", "show show"),
    ("run f =", "run f = - - - -"),
    ("run f p-q", "run f p-q - - - -"),
    ("run --control abort f p", "run f p - - - abort"),
    ("run f --control=abort p", "run f p - - - abort"),
    ("run f p --control a-b --moves 2", "run f p - 2 - a-b"),
    ("run f p --control==", "run f p - - - ="),
];

/// Lines that ask for nothing.
const UNREAD: &[&str] = &[
    "",
    "run",
    "run f",
    "run f p q",
    "show",
    "show f g",
    "help",
    "help run",
    "--help",
    "--version",
    "run  p",
    "run f p ",
    "run f p --commits",
    "run f p --commits=",
    "run f p --commits= 5",
    "run f p --commits +5",
    "run f p --commits 5 --commits=5",
    "run f p --commit 5",
    "run f p --commits --moves 5",
    "run f p --commits=-5",
    "run f p --commits 000000005",
    "run f p --commits 1000001",
    "run f p --moves 1000001",
    "run f p --cells 64000001",
    "run f p --workers 1",
    "run f p --",
    "run -- f p",
    "run - p",
    "run f -p",
    "run f p --help",
    "run f p -h",
    "run f p --=5",
    "run f p --commits=5=",
    "run f p --control",
    "run f p --control=",
    "run f p --control ",
    "run f p --control -5",
    "run f p --control=-5",
    "run f p --control a --control=a",
    "run f p --contro a",
    "show f --control a",
    "show -- f",
    "show --help",
    "show f --commits 5",
    "--commits 5 run f p",
];

/// The words of a line, with one space between two.
fn words_in(alloc: Global, line: &str) -> Result<Vec<String>, Fail> {
    let mut words = Vec::new(alloc);
    for word in line.split(' ') {
        words.push(String::from_str(alloc, word)?)?;
    }
    Ok(words)
}

/// The number of a value that was written, or the default where `-` stands.
fn number(value: Option<&str>, default: u32) -> Option<u32> {
    match value {
        Some("-") => Some(default),
        Some(digits) => digits.parse().ok(),
        None => None,
    }
}

/// A text that was written, or none where `-` stands.
fn text(value: Option<&str>) -> Option<&str> {
    match value {
        Some("-") => None,
        value => value,
    }
}

/// Whether an order is the one of a row.
fn is_asked(order: &Order, wanted: &str) -> bool {
    let mut parts = wanted.split(' ');
    let command = parts.next();
    let file = parts.next();
    match order {
        Order::Run {
            file: name,
            goal,
            limits,
            control,
        } => {
            command == Some("run")
                && file == Some(name.as_str())
                && parts.next() == Some(goal.as_str())
                && number(parts.next(), 1_000_000) == Some(limits.commits)
                && number(parts.next(), 1_000_000) == Some(limits.moves)
                && number(parts.next(), 8_000_000) == Some(limits.cells)
                && text(parts.next()) == control.as_ref().map(|control| control.as_str())
        }
        Order::Show { file: name } => command == Some("show") && file == Some(name.as_str()),
    }
}

#[test]
fn lines_that_ask_for_something(rt: HostRuntime) -> Result<(), Fail> {
    for (line, wanted) in READ {
        let words = words_in(rt.alloc(), line)?;
        let order = read_words(rt.alloc(), words.as_slice()).expect(&rt, line);
        assert!(rt; is_asked(&order, wanted), "{line}");
    }
    Ok(())
}

#[test]
fn lines_that_ask_for_nothing(rt: HostRuntime) -> Result<(), Fail> {
    for line in UNREAD {
        let words = words_in(rt.alloc(), line)?;
        let given = read_words(rt.alloc(), words.as_slice()).err();
        assert_eq!(rt; given, Some(WordFault::Usage), "{line}");
    }
    assert_eq!(rt; read_words(rt.alloc(), &[]).err(), Some(WordFault::Usage));
    Ok(())
}
