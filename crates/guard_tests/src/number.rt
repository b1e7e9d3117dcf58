//! The numbers of words.
ghost use Rattle.std.specs.Prelude.{◌≡◌, pos, IfOk, OnOk};
ghost use Rattle.heap_words.specs.Cells.{decoded, IsCell};
ghost use Rattle.heap_words.specs.Trails.{Holds, KeepsLoads, Says};
ghost use Rattle.ro_unify.specs.Value.{look_word};
ghost use Rattle.word_states.specs.Numbers.{low_bits};
ghost use Rattle.guard_tests.specs.Numbers.{signed_byte, joined, wide_number, number_of, number_at};

use fcp_model::NoMemory;
use heap_words::{Cell, Trail, Words, decode};
use ro_unify::Look;

/// What an expression comes to: a number, no number of 64 bits, or it waits for a place.
#[derive(Clone, Copy, Debug, PartialEq, Eq)]
pub enum Evaluated {
    Value(i64),
    Bad,
    Wait,
}

/// What one of the upper bits counts of a wide number.
const UPPER: i64 = 0x100_0000_0000_0000;

/// A byte as a signed number.
fn signed(byte: u8) -> i64
    ensures { result ≡ signed_byte byte }
{
    if byte < 128 {
        byte as i64
    } else {
        byte as i64 - 256
    }
}

/// The lower 56 bits of a small number.
fn lower_bits(small: i64) -> i64
    requires { IsCell (Cell.Small small) }
    ensures { result ≡ pos (low_bits small) }
{
    if small < 0 { small + UPPER } else { small }
}

/// The number with these upper eight bits, and the lower 56 of a small number.
fn join(high: u8, low: i64) -> i64
    requires { IsCell (Cell.Small low) }
    ensures { result ≡ joined high low }
{
    signed(high) * UPPER + lower_bits(low)
}

/// A wide number, by its upper bits and the word of its lower ones.
fn wide(high: u8, lower: u64) -> Evaluated
    ensures { result ≡ wide_number high (decoded lower) }
{
    match decode(lower) {
        Some(Cell::Small(low)) => Evaluated::Value(join(high, low)),
        _ => Evaluated::Bad,
    }
}

/// The number of a word that is no reference.
fn number_in<W: Words>(trail: &mut Trail, words: &mut W, word: u64) -> Result<Evaluated, NoMemory>
    requires sound { W.sound words.old }
    requires holds { Holds W.had W.leads trail.old.kept trail.old.binds words.old }
    requires leads { W.leads words.old word }
    ensures between { W.later words.old words.new }
    ensures loaded { OnOk result (KeepsLoads W.sound W.had W.leads W.later W.gave trail.old.kept trail.old.binds words.old
        trail.new.kept trail.new.binds words.new) }
    ensures binds { trail.new.binds ≡ trail.old.binds }
    ensures reads { trail.new.reads.items ≡ trail.old.reads.items }
    ensures number { IfOk result (λ e. Says (W.own words.new) trail.new.kept (λ m. number_of m (decoded word) ≡ e)) }
{
    match decode(word) {
        Some(Cell::Small(number)) => Ok(Evaluated::Value(number)),
        Some(Cell::Wide(low, high)) => {
            let lower = trail.word(words, low)?;
            Ok(wide(high, lower))
        }
        _ => Ok(Evaluated::Bad),
    }
}

/// What an operand gives, by its value.
pub(crate) fn number<W: Words>(
    trail: &mut Trail,
    words: &mut W,
    look: Look,
) -> Result<Evaluated, NoMemory>
    requires sound { W.sound words.old }
    requires holds { Holds W.had W.leads trail.old.kept trail.old.binds words.old }
    requires leads { W.leads words.old (look_word look) }
    ensures between { W.later words.old words.new }
    ensures loaded { OnOk result (KeepsLoads W.sound W.had W.leads W.later W.gave trail.old.kept trail.old.binds words.old
        trail.new.kept trail.new.binds words.new) }
    ensures binds { trail.new.binds ≡ trail.old.binds }
    ensures reads { trail.new.reads.items ≡ trail.old.reads.items }
    ensures number { IfOk result (λ e. Says (W.own words.new) trail.new.kept (λ m. number_at m look ≡ e)) }
{
    match look {
        Look::Writable(_) => Ok(Evaluated::Wait),
        Look::ReadOnly(_) => Ok(Evaluated::Wait),
        Look::Solid(word) => {
            let found = number_in(trail, words, word)?;
            Ok(found)
        }
    }
}
