//! The piece at the front of a text: white space or a comment, or a token.
ghost use Rattle.std.specs.Prelude.{◌≡◌, ◌<◌, ◌≤◌, ◌^◌, length};
ghost use Rattle.fcp_text.specs.Pieces as spec;

use crate::bytes::{Class, leading};
use crate::marks::mark;
use crate::numbers::{begins_number, number};
use crate::quotes::closing;
use fcp_model::Code;

/// What a token is.
#[derive(Clone, Copy, Debug, PartialEq, Eq)]
pub enum Kind {
    /// A lower-case ASCII letter, and then ASCII letters, digits and `_`.
    Name,
    /// A string between two `'` or two `"`. The quote twice stands for itself once.
    Quoted,
    /// An upper-case ASCII letter or `_`, and then ASCII letters, digits and `_`.
    Variable,
    /// A decimal number, perhaps with a sign.
    Int(i64),
    /// A mark by its number, which is one of those of `mark`.
    Mark(u8),
}

/// What stands at the front of a text.
#[derive(Clone, Copy, Debug, PartialEq, Eq)]
pub enum Piece {
    /// White space or a comment, with its length in bytes.
    Gap(usize),
    /// A token, with its length in bytes.
    Token(Kind, usize),
    /// No piece: a fault at the text's first byte.
    Bad(Code),
}

#[tactic(auto, unfolding(crate::specs::Pieces::quoted))]
fn quoted(text: &[u8]) -> Piece
    requires room { 0 < length text.now }
    requires few { length text.now < 2 ^ 32 }
    ensures value { result ≡ spec.quoted text.now }
    ensures within { spec.IsWithin result (length text.now) }
{
    match closing(text[0], &text[1..]) {
        Some(len) => Piece::Token(Kind::Quoted, len),
        None => Piece::Bad(Code::OpenQuote),
    }
}

/// The piece at the front of a text that is not empty. `may_sign` says that a sign may stand here.
#[tactic(auto, unfolding(crate::specs::Pieces::scan))]
pub fn scan(may_sign: bool, text: &[u8]) -> Piece
    requires room { 0 < length text.now }
    requires few { length text.now < 2 ^ 32 }
    ensures value { result ≡ spec.scan may_sign text.now }
    ensures within { spec.IsWithin result (length text.now) }
{
    let first = text[0];
    if first == b' ' || first == b'\t' || first == b'\r' || first == b'\n' {
        return Piece::Gap(1);
    }
    if first == b'%' {
        return Piece::Gap(leading(Class::Line, text));
    }
    if first.is_ascii_lowercase() {
        return Piece::Token(Kind::Name, leading(Class::Word, text));
    }
    if first.is_ascii_uppercase() || first == b'_' {
        return Piece::Token(Kind::Variable, leading(Class::Word, text));
    }
    if first == b'\'' || first == b'"' {
        return quoted(text);
    }
    if begins_number(may_sign, text) {
        return match number(text) {
            Some((value, len)) => Piece::Token(Kind::Int(value), len),
            None => Piece::Bad(Code::NumberRange),
        };
    }
    match mark(text) {
        Some((number, len)) => Piece::Token(Kind::Mark(number), len),
        None => Piece::Bad(Code::BadCharacter),
    }
}
