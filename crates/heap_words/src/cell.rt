//! Cells: what a word of the store says, and the word that says it.
//!
//! A word is 16 times what its cell says, and the tag of the cell's kind.
//!
//! | tag | cell    | says                                        | from 0 to   | an example in hexadecimal    |
//! |-----|---------|---------------------------------------------|-------------|------------------------------|
//! | 0   | Unbound | the address of an entry, or 0               | 2^32 - 1    | Unbound(5) is 50             |
//! | 1   | Ref     | the address of a place                      | 2^32 - 1    | Ref(5) is 51                 |
//! | 2   | RoRef   | the address of a place                      | 2^32 - 1    | RoRef(5) is 52               |
//! | 3   | Small   | the number and 2^55                         | 2^56 - 1    | Small(1) is 800000000000013  |
//! | 4   | Wide    | the address, and 2^32 times the upper bits  | 2^40 - 1    | Wide(1, 2) is 2000000014     |
//! | 5   | Str     | the number of a string                      | 2^32 - 1    | Str(Sym(5)) is 55            |
//! | 6   | Nil     | 0                                           | 0           | Nil is 6                     |
//! | 7   | Cons    | the address of the first part               | 2^32 - 1    | Cons(5) is 57                |
//! | 8   | Tuple   | the address of a Raw                        | 2^32 - 1    | Tuple(5) is 58               |
//! | 9   | Status  | 0 ready, 1 done, 2 and the entry's number   | 2^32 + 1    | Status(Waiting(5)) is 79     |
//! | 10  | Raw     | a number                                    | 2^32 - 1    | Raw(5) is 5a                 |
//! | 11  | Top     | an address                                  | 2^32 - 1    | Top(5) is 5b                 |
ghost use Rattle.std.specs.Prelude.{◌≡◌, Some, IfSome, IfNone};
ghost use Rattle.heap_words.specs.Cells.{IsCell, encoded, encoded_stand, decoded, stand_of, plain_of, is_final_word};
ghost use Rattle.heap_words.specs.declared.cell.Cell.{Cell};

use fcp_model::Sym;

/// How a process stands.
#[derive(Clone, Copy, Debug, PartialEq, Eq)]
pub enum Stand {
    Ready,
    /// It hangs, by the entry of this number.
    Waiting(u32),
    Done,
}

/// What a word says. An address counts words from 0, over all pages.
#[derive(Clone, Copy, Debug, PartialEq, Eq)]
pub enum Cell {
    /// A place that is not bound, with the address of the first entry of its waiting list, or 0 where none waits.
    Unbound(u32),
    /// A writable occurrence of the place whose word is at the address.
    Ref(u32),
    /// A read-only occurrence of the place whose word is at the address.
    RoRef(u32),
    /// A number from -2^55 to 2^55 - 1.
    Small(i64),
    /// Any other number: its lower 56 bits are the `Small` at the address, taken as a signed number, and its upper 8 bits
    /// the second field.
    Wide(u32, u8),
    /// A string, by its number in the list of names.
    Str(Sym),
    Nil,
    /// A pair, whose two parts are at the address and behind it.
    Cons(u32),
    /// A tuple, or an operator with its operands: at the address a `Raw`, and behind it the parts.
    Tuple(u32),
    /// The first word of a process.
    Status(Stand),
    /// A number that belongs to the piece in which it stands: of parts, of an operator, of a procedure, of arguments.
    Raw(u32),
    /// The first word of a page: the address behind the last word that is in use there.
    Top(u32),
}

/// How many tags there could be.
const TAGS: u64 = 16;

const UNBOUND: u64 = 0;

const REF: u64 = 1;

const RO_REF: u64 = 2;

const SMALL: u64 = 3;

const WIDE: u64 = 4;

const STR: u64 = 5;

const NIL: u64 = 6;

const CONS: u64 = 7;

const TUPLE: u64 = 8;

const STATUS: u64 = 9;

const RAW: u64 = 10;

const TOP: u64 = 11;

/// What is added to a small number, so that none is negative.
const HALF: i64 = 0x80_0000_0000_0000;
/// How many small numbers there are.
const SMALLS: u64 = 0x100_0000_0000_0000;
/// How many addresses there are.
const ADDRESSES: u64 = 0x1_0000_0000;

/// The word of a cell. A `Small` has to be from -2^55 to 2^55 - 1.
pub fn encode(cell: Cell) -> u64
    requires { IsCell cell }
    ensures value { result ≡ encoded cell }
    ensures back { decoded result ≡ Some cell }
{
    word_of(cell)
}

/// The word of a cell, by its kind.
fn word_of(cell: Cell) -> u64
    requires { IsCell cell }
    ensures { result ≡ encoded cell }
{
    match cell {
        Cell::Unbound(first) => TAGS * first as u64 + UNBOUND,
        Cell::Ref(place) => TAGS * place as u64 + REF,
        Cell::RoRef(place) => TAGS * place as u64 + RO_REF,
        Cell::Small(number) => TAGS * (number + HALF) as u64 + SMALL,
        Cell::Wide(low, high) => TAGS * (high as u64 * ADDRESSES + low as u64) + WIDE,
        Cell::Str(name) => TAGS * name.0 as u64 + STR,
        Cell::Nil => NIL,
        Cell::Cons(at) => TAGS * at as u64 + CONS,
        Cell::Tuple(at) => TAGS * at as u64 + TUPLE,
        Cell::Status(stand) => TAGS * stand_number(stand) + STATUS,
        Cell::Raw(number) => TAGS * number as u64 + RAW,
        Cell::Top(at) => TAGS * at as u64 + TOP,
    }
}

/// The number of a stand.
fn stand_number(stand: Stand) -> u64
    ensures { result ≡ encoded_stand stand }
{
    match stand {
        Stand::Ready => 0,
        Stand::Done => 1,
        Stand::Waiting(hang) => 2 + hang as u64,
    }
}

/// The cell of a word, or `None` exactly where the word is no cell's.
#[tactic(auto, unfolding(crate::specs::Cells::decoded))]
pub fn decode(word: u64) -> Option<Cell>
    ensures value { result ≡ decoded word }
    ensures cell { IfSome result (λ c. IsCell c × (encoded c ≡ word)) }
    ensures none { IfNone result ((c : Cell) → IsCell c → encoded c ≡ word → ⊥) }
{
    let says = word / TAGS;
    match word % TAGS {
        SMALL => if says < SMALLS {
            Some(Cell::Small(says as i64 - HALF))
        } else {
            None
        },
        WIDE => {
            if says < 256 * ADDRESSES {
                Some(Cell::Wide((says % ADDRESSES) as u32, (says / ADDRESSES) as u8))
            } else {
                None
            }
        }
        NIL => if says == 0 { Some(Cell::Nil) } else { None },
        STATUS => stand_with(says).map(Cell::Status),
        tag => if says < ADDRESSES {
            plain_cell(tag, says as u32)
        } else {
            None
        },
    }
}

/// The stand of a number, where there is one.
fn stand_with(number: u64) -> Option<Stand>
    ensures { result ≡ stand_of number }
{
    match number {
        0 => Some(Stand::Ready),
        1 => Some(Stand::Done),
        hang => if hang < ADDRESSES + 2 {
            Some(Stand::Waiting((hang - 2) as u32))
        } else {
            None
        },
    }
}

/// The cell of a tag that says a number of 32 bits.
fn plain_cell(tag: u64, says: u32) -> Option<Cell>
    ensures { result ≡ plain_of tag says }
{
    match tag {
        UNBOUND => Some(Cell::Unbound(says)),
        REF => Some(Cell::Ref(says)),
        RO_REF => Some(Cell::RoRef(says)),
        STR => Some(Cell::Str(Sym(says))),
        CONS => Some(Cell::Cons(says)),
        TUPLE => Some(Cell::Tuple(says)),
        RAW => Some(Cell::Raw(says)),
        TOP => Some(Cell::Top(says)),
        _ => None,
    }
}

/// Whether no other word may ever take this one's place: it is neither an `Unbound` nor a `Status` nor a `Top`.
pub fn is_final(word: u64) -> bool
    ensures { result ≡ is_final_word word }
{
    !matches!(
        decode(word),
        Some(Cell::Unbound(_) | Cell::Status(_) | Cell::Top(_))
    )
}
