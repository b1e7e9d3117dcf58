//! The instruction that puts a constant.
ghost use Rattle.std.specs.Prelude.{◌≡◌, ◌<◌, ◌≤ℤ◌, pos, Some, length, slice_get, IfSome, IfNone, OnOk};
ghost use Rattle.heap_words.specs.Cells.{decoded};
ghost use Rattle.heap_words.specs.declared.cell.Cell.TheVariants as cell;
ghost use Rattle.fcp_model.specs.Terms.{number};
ghost use Rattle.ro_unify.specs.Alike.{wide_of};
ghost use Rattle.word_states.specs.Numbers.{IsLong};
ghost use Rattle.machine_code.specs.Reading.{wide, low_bits, small_in, small_of, constant};
ghost use Rattle.try_desk.specs.Constants.{TakesConstant, IsLow, plain_word};
ghost use Rattle.try_desk.specs.Keeping.{KeepsDesk};

use crate::desk::Desk;
use fcp_model::NoMemory;
use heap_words::{Cell, decode, encode};
use machine_code::Code;

/// How many numbers 56 bits have.
const LOW: i64 = 0x100_0000_0000_0000;

/// The word of the empty list.
const NIL: u64 = 6;

/// The number of a Small, or 0.
fn small_in(word: u64) -> i64
    ensures value { result ≡ small_in (decoded word) }
    ensures low { IsLow result }
{
    match decode(word) {
        Some(Cell::Small(low)) => low,
        _ => 0,
    }
}

/// The number of the code's Small of a number from 0, or 0.
fn small_at(code: &Code, at: u32) -> i64
    ensures value { result ≡ small_of (slice_get code.now.smalls at) }
    ensures low { IsLow result }
{
    match code.small(at) {
        Some(word) => small_in(word),
        None => 0,
    }
}

/// The number of 64 bits, by its lower 56 bits as a signed number and its upper eight.
fn wide(low: i64, high: u8) -> i64
    requires { IsLow low }
    ensures { result ≡ wide low high }
{
    let upper = if high < 128 {
        high as i64
    } else {
        high as i64 - 256
    };
    if low < 0 {
        upper * LOW + (low + LOW)
    } else {
        upper * LOW + low
    }
}

/// The word that says a number alone. A long number has none.
fn short_word(number: i64) -> Option<u64>
    ensures some { IfSome result (λ x. decoded x ≡ Some (cell.Small number)) }
    ensures none { IfNone result (IsLong number) }
{
    if -0x7f_ffff_ffff_ffff - 1 <= number && number <= 0x7f_ffff_ffff_ffff {
        Some(encode(Cell::Small(number)))
    } else {
        None
    }
}

/// The address and the upper bits of a wide number.
fn wide_in(word: u64) -> Option<(u32, u8)>
    ensures { result ≡ wide_of (decoded word) }
{
    match decode(word) {
        Some(Cell::Wide(at, high)) => Some((at, high)),
        _ => None,
    }
}

/// The word of a short number or of a string stays as it is, and any other is that of the empty list.
fn plain_word(word: u64) -> u64
    ensures { result ≡ plain_word word (decoded word) }
{
    match decode(word) {
        Some(Cell::Small(_)) | Some(Cell::Str(_)) => word,
        _ => NIL,
    }
}

/// A number of 56 bits as a signed one.
fn signed(bits: i64) -> i64
    requires { (pos 0 ≤ℤ bits) × (bits ≤ℤ pos 0xffffffffffffff) }
    ensures low { IsLow result }
    ensures value { low_bits result ≡ bits }
{
    if bits < LOW / 2 { bits } else { bits - LOW }
}

/// The lower 56 bits of a number, as a signed number, and its upper eight.
fn split(number: i64) -> (i64, u8)
    ensures low { IsLow result.0 }
    ensures value { wide result.0 result.1 ≡ number }
{
    if number < 0 {
        let size = number.unsigned_abs() - 1;
        (
            signed(LOW - 1 - (size % LOW as u64) as i64),
            255 - (size / LOW as u64) as u8,
        )
    } else {
        (signed(number % LOW), (number / LOW) as u8)
    }
}

impl Desk {
    /// A slot takes a number: in one word if it is short, or else by a new piece.
    pub fn put_integer(&mut self, slot: u32, value: i64) -> Result<(), NoMemory>
        requires { slot < length self.old.slots.slots }
        ensures takes { OnOk result (TakesConstant self.old self.new slot (number value)) }
        ensures keeps { KeepsDesk self.old self.new }
    {
        match short_word(value) {
            Some(word) => {
                self.put_word(slot, word);
                Ok(())
            }
            None => {
                let (low, high) = split(value);
                self.put_wide(slot, encode(Cell::Small(low)), high)?;
                Ok(())
            }
        }
    }

    /// A slot takes the constant that a word of the code says: a number, a string, or the empty list.
    pub fn put_constant(&mut self, slot: u32, word: u64, code: &Code) -> Result<(), NoMemory>
        requires { slot < length self.old.slots.slots }
        ensures takes { OnOk result (TakesConstant self.old self.new slot (constant code.now.smalls (decoded word))) }
        ensures keeps { KeepsDesk self.old self.new }
    {
        match wide_in(word) {
            Some((at, high)) => self.put_integer(slot, wide(small_at(code, at), high)),
            None => {
                self.put_word(slot, plain_word(word));
                Ok(())
            }
        }
    }
}
