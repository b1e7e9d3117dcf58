//! The words of a call, and what they ask for.
#![tactic(auto)]

ghost use Rattle.std.specs.Prelude.{◌≡◌, IfOk, IsTrue, map};
ghost use Rattle.std.specs.List.{list_all};
ghost use Rattle.std.specs.String.{string_bytes};
ghost use Rattle.command_words.specs.Laws.{WordsHaveOneReading};
ghost use Rattle.command_words.specs.Orders as spec;
ghost use Rattle.command_words.specs.Readings.{is_proper, has_words, ReadsWords};

mod command;
mod found;
mod order;
mod run_option;

use command::parse;
use found::order_in;
pub use order::{Order, WordFault};
pub use run_option::{RunLimit, RunOption};
use std::alloc::Global;

/// The most bytes of a word.
const MOST_WORD_BYTES: usize = 65_536;

/// What the words of a call ask for, which are those behind the program's name. `Err` says that they ask for nothing, or that
/// memory ran out.
pub fn read_words(alloc: Global, words: &[String]) -> Result<Order, WordFault>
    ensures reads { ReadsWords (map string_bytes words.now) result }
    ensures proper { IfOk result (λ o. IsTrue (has_words o)) }
{
    if !are_allowed(words) {
        return Err(WordFault::Usage);
    }
    let matches = parse(alloc, words)?;
    order_in(alloc, &matches)
}

/// Whether each word may stand in a call.
fn are_allowed(words: &[String]) -> bool
    ensures { result ≡ list_all (λ word. spec.is_allowed (string_bytes word)) words.now }
{
    words.iter().all(|word| is_allowed(word.as_str()))
}

/// Whether a word may stand in a call. The parser would take an empty one, a longer one, `--` and `-`, and would look for options
/// of one letter.
fn is_allowed(word: &str) -> bool
    ensures { result ≡ spec.is_allowed word.now }
{
    is_proper(word) && is_long_or_plain(word.as_bytes())
}

/// Whether a word has 1 to 65,536 bytes.
fn is_proper(word: &str) -> bool
    ensures { result ≡ is_proper word.now }
{
    1 <= word.len() && word.len() <= MOST_WORD_BYTES
}

/// Whether no `-` stands in front, or two do with something behind them.
fn is_long_or_plain(word: &[u8]) -> bool
    ensures { result ≡ spec.is_long_or_plain word.now }
{
    match word {
        [b'-', b'-', _, ..] => true,
        [b'-', ..] => false,
        _ => true,
    }
}

/// Words ask for one thing at most.
pub fn words_have_one_reading()
    ensures { WordsHaveOneReading }
{}
