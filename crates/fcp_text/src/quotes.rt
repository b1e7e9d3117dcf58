//! Quoted strings.
ghost use Rattle.std.specs.Prelude.{◌≡◌, ◌<◌, ◌≤◌, ◌+◌, ◌^◌, length, false, IfSome};
ghost use Rattle.fcp_text.specs.QuotedStrings as spec;

use crate::bytes::byte_at;

/// The place behind the closing quote, for the text behind the opening one, whose first place is 1.
/// `None` where a line feed or the end comes first.
pub fn closing(quote: u8, mut text: &[u8]) -> Option<usize>
    requires { length text.now < 2 ^ 63 }
    ensures value { result ≡ spec.closing quote false 1 text.entry.now }
    ensures within { IfSome result (λ end. (1 ≤ end) × (end ≤ length text.entry.now + 1)) }
{
    let mut is_second = false;
    let mut at = 1;
    while let [byte, rest @ ..] = text {
        if !is_second && *byte == b'\n' {
            return None;
        }
        if !is_second && *byte == quote && byte_at(rest, 0) != quote {
            return Some(at + 1);
        }
        is_second = !is_second && *byte == quote;
        at += 1;
        text = rest;
    }
    None
}
