//! A number as a word, and the piece that a wide one has.
ghost use Rattle.std.specs.Prelude.{◌≡◌, ◌⊎◌, ℕ, ◌+◌, ◌*◌, ◌<◌, ◌≤ℤ◌, pos, negsuc, Option, Some, None, IfNone, IfSome, OnSome};
ghost use Rattle.fcp_model.specs.Terms.{number};
ghost use Rattle.heap_words.specs.Heaps.{inside_at};
ghost use Rattle.word_states.specs.Numbers.{bits, low_bits, IsLong};
ghost use Rattle.word_states.specs.Denoting.{Addresses, Denotes};
ghost use Rattle.goal_layout.specs.FirstFit.{first_fit};
ghost use Rattle.goal_layout.specs.PieceSizes.{is_small, term_sizes};
ghost use Rattle.goal_layout.specs.Pages.{ArePages, rooms};
ghost use Rattle.goal_layout.specs.Laying.{Lays};

use crate::pages::take;
use heap_words::{Cell, encode};

/// Small numbers lie from -2^55 to 2^55 - 1.
const HALF: u64 = 0x80_0000_0000_0000;

/// How many numbers 56 bits have.
const LOW: u64 = 0x100_0000_0000_0000;

/// Whether one word holds a number.
fn is_small(number: i64) -> bool
    ensures { result ≡ is_small number }
{
    -0x7f_ffff_ffff_ffff - 1 <= number && number <= 0x7f_ffff_ffff_ffff
}

/// A number of 56 bits as a signed one.
fn signed(bits: u64) -> i64
    requires { bits < 0x100000000000000 }
    ensures low { (negsuc 0x7fffffffffffff ≤ℤ result) × (result ≤ℤ pos 0x7fffffffffffff) }
    ensures value { low_bits result ≡ bits }
{
    if bits < HALF {
        bits as i64
    } else {
        bits as i64 - LOW as i64
    }
}

/// The lower 56 bits of a number, as a signed number, and its upper eight.
fn split(number: i64) -> (i64, u8)
    ensures low { (negsuc 0x7fffffffffffff ≤ℤ result.0) × (result.0 ≤ℤ pos 0x7fffffffffffff) }
    ensures value { bits number ≡ result.1 * 0x100000000000000 + low_bits result.0 }
{
    if number < 0 {
        let size = number.unsigned_abs() - 1;
        (signed(LOW - 1 - size % LOW), 255 - (size / LOW) as u8)
    } else {
        (signed(number as u64 % LOW), (number as u64 / LOW) as u8)
    }
}

/// The word of a number. The lower bits of a wide one are laid as a piece of their own.
pub(crate) fn lay_number(words: &mut [u64], value: i64) -> Option<u64>
    requires { ArePages words.old }
    ensures pages { OnSome result (ArePages words.new) }
    ensures none { IfNone result (first_fit (rooms words.old) (term_sizes (number value)) ≡ None) }
    ensures laid { (vs : Addresses) → IfSome result (λ x. Lays vs (term_sizes (number value)) words.old words.new
        × Denotes (inside_at words.new) vs x (number value)) }
{
    if is_small(value) {
        return Some(encode(Cell::Small(value)));
    }
    let (low, high) = split(value);
    let at = take(words, 1)?;
    words[at as usize] = encode(Cell::Small(low));
    Some(encode(Cell::Wide(at, high)))
}
