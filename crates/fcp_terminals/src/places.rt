//! The places of tokens.
ghost use Rattle.std.specs.Prelude.{◌≡◌, ◌<◌, ◌^◌, length};
ghost use Rattle.fcp_terminals.specs.Lexemes as spec;

use fcp_text::Token;

/// The place in bytes, from 0, of the token at an index from 0, or the text's length where there is none.
pub fn place_at(text: &[u8], tokens: &[Token], index: usize) -> u32
    requires { length text.now < 2 ^ 32 }
    ensures { result ≡ spec.place_at text.now tokens.now index }
{
    match tokens.get(index) {
        Some(token) => token.at,
        None => text.len() as u32,
    }
}
