//! The whole numbers that stand in words of a call.
#![tactic(auto)]

ghost use Rattle.std.specs.Prelude.{◌≡◌, ◌≤◌};
ghost use Rattle.word_numbers.specs.Numbers as spec;

mod digits;

use digits::{are_digits, value_of};

/// The number that a word writes: one decimal digit or more, zeros in front too, at most `most_digits` of them, with a value
/// of at most `most`. `None` where the word writes no such number.
pub fn number_of(word: &[u8], most_digits: usize, most: u32) -> Option<u32>
    requires { most_digits ≤ 9 }
    ensures { result ≡ spec.number_of most_digits most word.now }
{
    if word.is_empty() || word.len() > most_digits || !are_digits(word) {
        return None;
    }
    let value = value_of(word);
    if value <= most { Some(value) } else { None }
}
