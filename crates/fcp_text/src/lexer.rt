//! The tokens of a text.
ghost use Rattle.std.specs.Prelude.{◌≡◌, ◌≤◌, [], ◌∷◌, ◌++◌, length, IfOk};
ghost use Rattle.fcp_text.specs.Bytes.{most_bytes};
ghost use Rattle.fcp_text.specs.Tokens as spec;

use crate::mark;
use crate::pieces::{Kind, Piece, scan};
use fcp_model::{Code, Fault, NoMemory, Refused, Seq};
use std::alloc::Global;

/// The most bytes of a text that is read.
pub const MOST_BYTES: usize = 1_048_576;

/// A token of a text.
#[derive(Clone, Copy, Debug, PartialEq, Eq)]
pub struct Token {
    pub kind: Kind,
    /// The place of its first byte, from 0.
    pub at: u32,
    /// Its length in bytes.
    pub len: u32,
}

/// Whether a sign may stand behind the token of these bytes.
fn sign_after(text: &[u8], kind: Kind) -> bool
    ensures { result ≡ spec.sign_after text.now kind }
{
    match kind {
        Kind::Name => text == b"mod".as_slice(),
        Kind::Quoted | Kind::Variable | Kind::Int(_) => false,
        Kind::Mark(number) => !matches!(
            number,
            mark::ROUND_CLOSE | mark::SQUARE_CLOSE | mark::CURLY_CLOSE | mark::QUESTION
        ),
    }
}

/// The tokens of a text that is known to be UTF-8.
fn tokens_in(alloc: Global, bytes: &[u8]) -> Result<Seq<Token>, Refused>
    requires { length bytes.now ≤ most_bytes }
    ensures { spec.Lexes (spec.tokens_in bytes.now) result }
{
    let mut found = Seq::empty(alloc);
    let mut may_sign = true;
    let mut at = 0;
    while at < bytes.len() {
        let rest = &bytes[at..];
        match scan(may_sign, rest) {
            Piece::Gap(len) => at += len,
            Piece::Token(kind, len) => {
                let token = Token {
                    kind,
                    at: at as u32,
                    len: len as u32,
                };
                let Ok(more) = found.with(token) else {
                    return Err(Refused::NoMemory(NoMemory));
                };
                found = more;
                may_sign = sign_after(&rest[..len], kind);
                at += len;
            }
            Piece::Bad(code) => return Err(Refused::Fault(Fault {
                code,
                at: at as u32,
            })),
        }
    }
    Ok(found)
}

/// The tokens of a text, in its order, or its first fault. That the text is not UTF-8 comes before all other faults, with
/// the length of the longest front that is. Then come, by their place, a character that begins no token (at its first
/// byte), a quote that the text's end or a line feed leaves open (at the quote), and a number out of 64 bits (at its first
/// byte). Each byte is read at most a few times.
pub fn tokens(alloc: Global, bytes: &[u8]) -> Result<Seq<Token>, Refused>
    requires { length bytes.now ≤ most_bytes }
    ensures { spec.Lexes (spec.tokens_of bytes.now) result }
{
    match str::from_utf8(bytes) {
        Ok(_) => tokens_in(alloc, bytes),
        Err(error) => Err(Refused::Fault(Fault {
            code: Code::NotUtf8,
            at: error.valid_up_to() as u32,
        })),
    }
}
