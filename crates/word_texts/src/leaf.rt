//! The texts of values without parts.
ghost use Rattle.std.specs.Prelude.{◌≡◌, ◌-◌, ◌<◌, pos, negsuc, ◌≤ℤ◌, ◌++◌, OnOk, OnErr};
ghost use Rattle.std.specs.Fmt.{signed_decimal};
ghost use Rattle.heap_words.specs.Cells.{decoded};
ghost use Rattle.heap_words.specs.Trails.{Holds, KeepsLoads, Says};
ghost use Rattle.ro_unify.specs.Value.{look_word};
ghost use Rattle.word_states.specs.Numbers.{low_bits};
ghost use Rattle.word_texts.specs.Leaves.{place_named, place_of, signed, long_number, leaf_of, solid_text, open_text, look_text};

use fcp_model::spelling::{Decimal, push_bytes, push_place, push_string};
use fcp_model::{Names, NoMemory, Place, Sym};
use heap_words::{Cell, Trail, Words, decode};
use ro_unify::Look;

/// What a word without parts is.
#[derive(Clone, Copy, Debug, PartialEq, Eq)]
pub(crate) enum Leaf {
    Number(i64),
    /// A number whose lower 56 bits are at the address, with its upper eight bits.
    Long(u32, u8),
    Text(Sym),
    Nil,
    /// It stands for no term.
    Unknown,
}

/// What a word without parts is, by its cell.
fn leaf_in(word: u64) -> Leaf
    ensures { result ≡ leaf_of (decoded word) }
{
    match decode(word) {
        Some(Cell::Small(number)) => Leaf::Number(number),
        Some(Cell::Wide(low, high)) => Leaf::Long(low, high),
        Some(Cell::Str(name)) => Leaf::Text(name),
        Some(Cell::Nil) => Leaf::Nil,
        _ => Leaf::Unknown,
    }
}

/// How many numbers a name can have.
const NUMBERS: u64 = 268_435_456;

/// The place of a name.
fn place_with(name: i64) -> Place
    requires { name ≤ℤ pos 0x7fffffffffffff }
    ensures { result ≡ place_named name }
{
    if name < 0 {
        return Place {
            entry: 0,
            number: 0,
        };
    }
    let name = name as u64;
    Place {
        entry: (name / NUMBERS) as u32,
        number: (name % NUMBERS) as u32,
    }
}

/// The place of a name's word; `_0.0` where the word is no name.
pub fn place_in(word: u64) -> Place
    ensures { result ≡ place_of (decoded word) }
{
    match decode(word) {
        Some(Cell::Small(name)) => place_with(name),
        _ => Place {
            entry: 0,
            number: 0,
        },
    }
}

/// The lower 56 bits of a small number.
fn bits_of(low: i64) -> u64
    requires least { negsuc 0x7fffffffffffff ≤ℤ low }
    requires most { low ≤ℤ pos 0x7fffffffffffff }
    ensures bits { result ≡ low_bits low }
    ensures few { result < 0x100000000000000 }
{
    if low < 0 {
        (low + 0x100_0000_0000_0000) as u64
    } else {
        low as u64
    }
}

/// The number of 64 bits.
fn signed_of(bits: u64) -> i64
    ensures { result ≡ signed bits }
{
    if bits < 0x8000_0000_0000_0000 {
        bits as i64
    } else {
        -((u64::MAX - bits) as i64) - 1
    }
}

/// The number with these upper eight bits, whose lower ones stand in a word.
fn long_in(high: u8, word: u64) -> i64
    ensures { result ≡ long_number high (decoded word) }
{
    match decode(word) {
        Some(Cell::Small(low)) => signed_of(high as u64 * 0x100_0000_0000_0000 + bits_of(low)),
        _ => 0,
    }
}

/// Puts a number after a text.
fn push_number(text: &mut Vec<u8>, number: i64) -> Result<(), NoMemory>
    ensures { OnOk result (text.new.items ≡ text.old.items ++ signed_decimal number) }
{
    let digits = Decimal::of(number);
    push_bytes(text, digits.as_bytes())?;
    Ok(())
}

/// Puts a value without parts that is no place after a text.
fn push_solid<W: Words>(
    text: &mut Vec<u8>,
    trail: &mut Trail,
    words: &mut W,
    names: &Names,
    word: u64,
) -> Result<(), NoMemory>
    requires sound { W.sound words.old }
    requires holds { Holds W.had W.leads trail.old.kept trail.old.binds words.old }
    requires leads { W.leads words.old word }
    ensures between { W.later words.old words.new }
    ensures loaded { OnOk result (KeepsLoads W.sound W.had W.leads W.later W.gave trail.old.kept trail.old.binds words.old
        trail.new.kept trail.new.binds words.new) }
    ensures binds { trail.new.binds ≡ trail.old.binds }
    ensures reads { trail.new.reads.items ≡ trail.old.reads.items }
    ensures text { OnOk result (Says (W.own words.new) trail.new.kept
        (λ m. text.new.items ≡ text.old.items ++ solid_text m names.now (leaf_of (decoded word)))) }
{
    match leaf_in(word) {
        Leaf::Number(number) => {
            push_number(text, number)?;
            Ok(())
        }
        Leaf::Long(at, high) => {
            let low = trail.word(words, at)?;
            push_number(text, long_in(high, low))?;
            Ok(())
        }
        Leaf::Text(name) => {
            push_string(text, names.text_or_empty(name))?;
            Ok(())
        }
        Leaf::Nil => {
            push_bytes(text, b"[]")?;
            Ok(())
        }
        Leaf::Unknown => Ok(()),
    }
}

/// Puts the name of an unbound place after a text. The name stands before the place's word.
fn push_open<W: Words>(
    text: &mut Vec<u8>,
    trail: &mut Trail,
    words: &mut W,
    place: u32,
) -> Result<(), NoMemory>
    requires sound { W.sound words.old }
    requires holds { Holds W.had W.leads trail.old.kept trail.old.binds words.old }
    requires known { W.knows words.old (place - 1) }
    ensures between { W.later words.old words.new }
    ensures loaded { OnOk result (KeepsLoads W.sound W.had W.leads W.later W.gave trail.old.kept trail.old.binds words.old
        trail.new.kept trail.new.binds words.new) }
    ensures binds { trail.new.binds ≡ trail.old.binds }
    ensures reads { trail.new.reads.items ≡ trail.old.reads.items }
    ensures text { OnOk result (Says (W.own words.new) trail.new.kept
        (λ m. text.new.items ≡ text.old.items ++ open_text m place)) }
{
    let name = trail.word(words, place.saturating_sub(1))?;
    push_place(text, place_in(name))?;
    Ok(())
}

/// Puts a value without parts after a text.
fn push_look<W: Words>(
    text: &mut Vec<u8>,
    trail: &mut Trail,
    words: &mut W,
    names: &Names,
    look: Look,
) -> Result<(), NoMemory>
    requires sound { W.sound words.old }
    requires holds { Holds W.had W.leads trail.old.kept trail.old.binds words.old }
    requires leads { W.leads words.old (look_word look) }
    ensures between { W.later words.old words.new }
    ensures loaded { OnOk result (KeepsLoads W.sound W.had W.leads W.later W.gave trail.old.kept trail.old.binds words.old
        trail.new.kept trail.new.binds words.new) }
    ensures binds { trail.new.binds ≡ trail.old.binds }
    ensures reads { trail.new.reads.items ≡ trail.old.reads.items }
    ensures text { OnOk result (Says (W.own words.new) trail.new.kept
        (λ m. text.new.items ≡ text.old.items ++ look_text m names.now look)) }
{
    match look {
        Look::Writable(place) => {
            push_open(text, trail, words, place)?;
            Ok(())
        }
        Look::ReadOnly(place) => {
            push_open(text, trail, words, place)?;
            push_bytes(text, b"?")?;
            Ok(())
        }
        Look::Solid(word) => {
            push_solid(text, trail, words, names, word)?;
            Ok(())
        }
    }
}

/// Puts a value without parts after a text, whole or not at all: it is gathered in `leaf` first.
pub(crate) fn write_leaf<W: Words>(
    leaf: &mut Vec<u8>,
    trail: &mut Trail,
    words: &mut W,
    names: &Names,
    out: &mut Vec<u8>,
    look: Look,
) -> Result<(), NoMemory>
    requires sound { W.sound words.old }
    requires holds { Holds W.had W.leads trail.old.kept trail.old.binds words.old }
    requires leads { W.leads words.old (look_word look) }
    ensures between { W.later words.old words.new }
    ensures loaded { OnOk result (KeepsLoads W.sound W.had W.leads W.later W.gave trail.old.kept trail.old.binds words.old
        trail.new.kept trail.new.binds words.new) }
    ensures binds { trail.new.binds ≡ trail.old.binds }
    ensures reads { trail.new.reads.items ≡ trail.old.reads.items }
    ensures text { OnOk result (Says (W.own words.new) trail.new.kept
        (λ m. out.new.items ≡ out.old.items ++ look_text m names.now look)) }
    ensures err { OnErr result (out.new.items ≡ out.old.items) }
{
    leaf.clear();
    push_look(leaf, trail, words, names, look)?;
    push_bytes(out, leaf.as_slice())?;
    Ok(())
}
