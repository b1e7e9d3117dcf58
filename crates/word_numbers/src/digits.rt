//! Decimal digits and their value.
ghost use Rattle.std.specs.Prelude.{◌≡◌, ◌≤◌, true, length};
ghost use Rattle.word_numbers.specs.Numbers as spec;

/// Whether each byte is a decimal digit.
pub fn are_digits(word: &[u8]) -> bool
    ensures { result ≡ spec.are_digits word.now }
{
    word.iter().all(|byte| byte.is_ascii_digit())
}

/// The value of at most nine digits.
pub fn value_of(digits: &[u8]) -> u32
    requires digits { spec.are_digits digits.now ≡ true }
    requires few { length digits.now ≤ 9 }
    ensures { result ≡ spec.digits_value digits.now }
{
    let mut value = 0;
    for byte in digits {
        value = 10 * value + u32::from(byte.saturating_sub(b'0'));
    }
    value
}
