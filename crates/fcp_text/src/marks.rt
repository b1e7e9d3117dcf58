//! Marks: signs of one to three bytes, by their numbers.
ghost use Rattle.std.specs.Prelude.{◌≡◌, ◌<◌, ◌≤◌, [], ◌∷◌, length, IfSome};
ghost use Rattle.fcp_text.specs.Marks as spec;

use crate::bytes::byte_at;
use crate::mark;

/// The number and the length of the longest mark at the front of a text that is not empty.
pub fn mark(text: &[u8]) -> Option<(u8, usize)>
    requires { 0 < length text.now }
    ensures value { result ≡ spec.mark text.now }
    ensures within { IfSome result (λ m. (1 ≤ m.1) × (m.1 ≤ length text.now)) }
{
    mark_of(text[0], byte_at(text, 1), byte_at(text, 2))
}

/// The mark of three bytes, of which those past the text's end are 0.
#[tactic(auto, unfolding(crate::specs::Marks::mark))]
fn mark_of(first: u8, second: u8, third: u8) -> Option<(u8, usize)>
    ensures value { result ≡ spec.mark (first ∷ second ∷ third ∷ []) }
    ensures short { IfSome result (λ m. spec.IsShort second third m.1) }
{
    match (first, second, third) {
        (b'\\', b'=', b'=') => Some((mark::NOT_SAME, 3)),
        (b'=', b':', b'=') => Some((mark::EQUAL, 3)),
        (b'=', b'\\', b'=') => Some((mark::NOT_EQUAL, 3)),
        (b':', b'-', _) => Some((mark::IF, 2)),
        (b':', b'=', _) => Some((mark::ASSIGN, 2)),
        (b'=', b'=', _) => Some((mark::SAME, 2)),
        (b'=', b'<', _) => Some((mark::AT_MOST, 2)),
        (b'>', b'=', _) => Some((mark::AT_LEAST, 2)),
        (b'(', _, _) => Some((mark::ROUND_OPEN, 1)),
        (b')', _, _) => Some((mark::ROUND_CLOSE, 1)),
        (b'[', _, _) => Some((mark::SQUARE_OPEN, 1)),
        (b']', _, _) => Some((mark::SQUARE_CLOSE, 1)),
        (b'{', _, _) => Some((mark::CURLY_OPEN, 1)),
        (b'}', _, _) => Some((mark::CURLY_CLOSE, 1)),
        (b'|', _, _) => Some((mark::BAR, 1)),
        (b',', _, _) => Some((mark::COMMA, 1)),
        (b'.', _, _) => Some((mark::DOT, 1)),
        (b'?', _, _) => Some((mark::QUESTION, 1)),
        (b'=', _, _) => Some((mark::EQUALS, 1)),
        (b'<', _, _) => Some((mark::LESS, 1)),
        (b'>', _, _) => Some((mark::GREATER, 1)),
        (b'+', _, _) => Some((mark::PLUS, 1)),
        (b'-', _, _) => Some((mark::MINUS, 1)),
        (b'*', _, _) => Some((mark::TIMES, 1)),
        (b'/', _, _) => Some((mark::DIVIDE, 1)),
        (b':', _, _) => Some((mark::COLON, 1)),
        (b'#', _, _) => Some((mark::HASH, 1)),
        _ => None,
    }
}
