//! How names, strings, numbers, places and processes are spelled. Each `push` function puts a text after another one. Its only
//! error is want of memory, after which a front of the text may stand there.
ghost use Rattle.std.specs.Prelude.{◌≡◌, ◌++◌, ◌∷◌, [], decimal, OnOk, OnErr};
ghost use Rattle.std.specs.Fmt.{signed_decimal};
ghost use Rattle.std.specs.List.{list_all};
ghost use Rattle.fcp_model.specs.Spelling.{is_name, is_word_byte, doubled, string_text, place_text, process_text};

use crate::{NoMemory, Place, Proc};
use itoa::Buffer;
use std::marker::Model;

/// A whole number in decimal, with `-` before a negative one. It holds its digits and takes no memory.
/// Contracts see the bytes.
#[derive(Drop)]
pub struct Decimal {
    digits: [u8; 20],
    len: usize,
}

impl Model for Decimal {
    ghost use Rattle.std.specs.Prelude.{List, ℕ, take, ◌≤◌};

    ghost Value = { List ℕ };

    ghost view = { λ d. take d.len d.digits };

    ghost invariant = { λ d. d.len ≤ 20 };
}

impl Decimal {
    /// The digits of a number.
    pub fn of(number: i64) -> Decimal
        ensures { result ≡ signed_decimal number }
    {
        let mut buffer = Buffer::new();
        let text = buffer.format(number).as_bytes();
        let mut digits = [0; 20];
        digits[..text.len()].copy_from_slice(text);
        Decimal {
            digits,
            len: text.len(),
        }
    }

    /// The bytes, all of them ASCII.
    pub fn as_bytes(&self) -> &[u8]
        ensures { result.now ≡ self.now }
    {
        &self.digits[..self.len]
    }
}

/// Whether a string has the form of a name, which is written without quotes: a lower-case letter, then letters, digits and `_`.
pub fn is_name(string: &str) -> bool
    ensures { result ≡ is_name string.now }
{
    let bytes = string.as_bytes();
    match bytes.first() {
        None => false,
        Some(first) => first.is_ascii_lowercase() && are_word_bytes(bytes),
    }
}

/// Whether there are letters, digits and `_` alone.
fn are_word_bytes(bytes: &[u8]) -> bool
    ensures { result ≡ list_all is_word_byte bytes.now }
{
    bytes.iter().all(|byte| is_word_byte(*byte))
}

/// A letter, a digit or `_`.
fn is_word_byte(byte: u8) -> bool
    ensures { result ≡ is_word_byte byte }
{
    byte.is_ascii_alphanumeric() || byte == b'_'
}

/// Puts bytes after a text. After `Err` the text is as before.
pub fn push_bytes(text: &mut Vec<u8>, bytes: &[u8]) -> Result<(), NoMemory>
    ensures ok { OnOk result (text.new.items ≡ text.old.items ++ bytes.now) }
    ensures err { OnErr result (text.new.items ≡ text.old.items) }
{
    match text.extend_from_slice(bytes) {
        Ok(()) => Ok(()),
        Err(_) => Err(NoMemory),
    }
}

/// Puts a number in decimal after a text. After `Err` the text is as before.
pub fn push_decimal(text: &mut Vec<u8>, number: u32) -> Result<(), NoMemory>
    ensures ok { OnOk result (text.new.items ≡ text.old.items ++ decimal number) }
    ensures err { OnErr result (text.new.items ≡ text.old.items) }
{
    let mut buffer = Buffer::new();
    push_bytes(text, buffer.format(number).as_bytes())
}

/// Puts `_n.k` after a text.
pub fn push_place(text: &mut Vec<u8>, place: Place) -> Result<(), NoMemory>
    ensures { OnOk result (text.new.items ≡ text.old.items ++ place_text place) }
{
    push_bytes(text, b"_")?;
    push_decimal(text, place.entry)?;
    push_bytes(text, b".")?;
    push_decimal(text, place.number)
}

/// Puts `#n.k` after a text.
pub fn push_process(text: &mut Vec<u8>, process: Proc) -> Result<(), NoMemory>
    ensures { OnOk result (text.new.items ≡ text.old.items ++ process_text process) }
{
    push_bytes(text, b"#")?;
    push_decimal(text, process.entry)?;
    push_bytes(text, b".")?;
    push_decimal(text, process.number)
}

/// Puts a string after a text: as it is where it has the form of a name, and else between quotes, with each `'` twice.
pub fn push_string(text: &mut Vec<u8>, string: &str) -> Result<(), NoMemory>
    ensures { OnOk result (text.new.items ≡ text.old.items ++ string_text string.now) }
{
    if is_name(string) {
        return push_bytes(text, string.as_bytes());
    }
    push_bytes(text, b"'")?;
    push_doubled(text, string.as_bytes())?;
    push_bytes(text, b"'")
}

/// Puts bytes after a text, with each `'` twice.
fn push_doubled(text: &mut Vec<u8>, bytes: &[u8]) -> Result<(), NoMemory>
    ensures { OnOk result (text.new.items ≡ text.old.items ++ doubled bytes.now) }
{
    for byte in bytes {
        push_quoted(text, *byte)?;
    }
    Ok(())
}

/// Puts one byte that stands between quotes after a text.
fn push_quoted(text: &mut Vec<u8>, byte: u8) -> Result<(), NoMemory>
    ensures { OnOk result (text.new.items ≡ text.old.items ++ doubled (byte ∷ [])) }
{
    if byte == b'\'' {
        push_bytes(text, b"''")
    } else {
        push_bytes(text, &[byte])
    }
}
