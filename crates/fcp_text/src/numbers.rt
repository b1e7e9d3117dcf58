//! Numbers: decimal digits, perhaps directly behind a sign.
ghost use Rattle.std.specs.Prelude.{◌≡◌, ◌≤◌, ◌+◌, ◌<◌, length, min, true, IfSome};
ghost use Rattle.fcp_text.specs.Numbers as spec;

use crate::bytes::{Class, byte_at, leading};

/// The value of the lowest number of 64 bits without its sign, which is one more than the largest.
const LIMIT: u64 = 9223372036854775808;

/// What stands for each value above the limit.
const ABOVE: u64 = 9223372036854775809;

/// A number begins here. `may_sign` says that a sign may stand here.
pub fn begins_number(may_sign: bool, text: &[u8]) -> bool
    ensures { result ≡ spec.begins_number may_sign text.now }
{
    let first = byte_at(text, 0);
    first.is_ascii_digit() || (may_sign && first == b'-' && byte_at(text, 1).is_ascii_digit())
}

/// The value of the digits, as far as the first value above the limit.
fn capped_value(digits: &[u8]) -> u64
    ensures { result ≡ min (spec.digits_value digits.now) 9223372036854775809 }
{
    let mut value: u64 = 0;
    for byte in digits {
        value = next_value(value, *byte);
    }
    value
}

/// The value with one digit more, or what stands for all values above the limit.
fn next_value(value: u64, byte: u8) -> u64
    requires { value ≤ 9223372036854775809 }
    ensures { result ≡ min (spec.with_digit value byte) 9223372036854775809 }
{
    let next = 10 * u128::from(value) + u128::from(byte.saturating_sub(b'0'));
    if next <= u128::from(LIMIT) {
        next as u64
    } else {
        ABOVE
    }
}

/// The number of a value with a sign or without, or `None` where it is out of 64 bits.
fn int_of(is_negative: bool, value: u64) -> Option<i64>
    ensures { result ≡ spec.int_of is_negative value }
{
    if value < LIMIT {
        if is_negative {
            Some(-(value as i64))
        } else {
            Some(value as i64)
        }
    } else if is_negative && value == LIMIT {
        Some(i64::MIN)
    } else {
        None
    }
}

/// The number at the front and its length, or `None` where it is out of 64 bits.
#[tactic(auto, unfolding(crate::specs::Numbers::number))]
pub fn number(text: &[u8]) -> Option<(i64, usize)>
    requires { spec.begins_number true text.now ≡ true }
    ensures value { result ≡ spec.number text.now }
    ensures within { IfSome result (λ n. (1 ≤ n.1) × (n.1 ≤ length text.now)) }
{
    let is_negative = byte_at(text, 0) == b'-';
    let start = if is_negative { 1 } else { 0 };
    let digits = &text[start..];
    let len = leading(Class::Digit, digits);
    let value = int_of(is_negative, capped_value(&digits[..len]))?;
    Some((value, start + len))
}
