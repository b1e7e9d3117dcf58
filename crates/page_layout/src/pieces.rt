//! The pieces of a try, as they are written.
ghost use Rattle.std.specs.Prelude.{◌≡◌, ℕ, ◌+◌, ◌*◌, ◌<◌, ◌≤◌, true, map, length, OnOk, [], ◌∷◌, suc, if◌then◌else◌, slice_get, Some};
ghost use Rattle.word_states.specs.Words.{row};
ghost use Rattle.word_states.specs.Pieces.{is_place, is_process};
ghost use Rattle.word_states.specs.Layouts.{moved, laid_piece};
ghost use Rattle.word_states.specs.Planning.{laid_rows};
ghost use Rattle.page_layout.specs.Laying.{moved_to, total, cuts, AreNamed};
ghost use Rattle.page_layout.specs.Writing.{Puts};

use crate::moves::{goes_to, relocate};
use crate::written::Written;
use fcp_model::NoMemory;
use heap_words::OWN;

/// The word of the small number 0, which is the name of place or process 0 of entry 0.
pub(crate) const ZERO: u64 = 576_460_752_303_423_491;

/// What a name word grows by from one entry to the next.
const ENTRY: u64 = 4_294_967_296;

/// Puts a write after the others.
pub(crate) fn put(
    writes: &mut Vec<Written>,
    addr: u32,
    word: u64,
    step: u64,
) -> Result<(), NoMemory>
    requires { word + step * 134217728 < 18446744073709551616 }
    ensures { OnOk result (Puts writes.old.items writes.new.items (λ n. (addr, word + step * n) ∷ [])) }
{
    match writes.push(Written { addr, word, step }) {
        Ok(()) => Ok(()),
        Err(_) => Err(NoMemory),
    }
}

/// Puts words one after another, each with its address become what the table gives it.
fn put_moved(
    writes: &mut Vec<Written>,
    table: &[u32],
    base: u32,
    words: &[u64],
) -> Result<(), NoMemory>
    requires { base + length words.now < 4294967296 }
    ensures { OnOk result (Puts writes.old.items writes.new.items (λ n. row base (map (moved (moved_to table.now)) words.now))) }
{
    for at in 0..words.len() {
        let word = relocate(table, words[at]);
        put(writes, base + at as u32, word, 0)?;
    }
    Ok(())
}

/// Whether a piece is a place's.
fn is_place_piece(piece: &[u64]) -> bool
    ensures { result ≡ is_place piece.now }
{
    matches!(piece, [0, _])
}

/// Whether a piece is a process's.
fn is_process_piece(piece: &[u64]) -> bool
    ensures { result ≡ is_process piece.now }
{
    matches!(piece, [9, ..])
}

/// Puts a piece at its new address, with the name of the place or of the process of these numbers.
fn put_piece(
    writes: &mut Vec<Written>,
    table: &[u32],
    base: u32,
    piece: &[u64],
    place: u32,
    process: u32,
) -> Result<(), NoMemory>
    requires room { base + length piece.now < 4294967296 }
    requires few { (place < 268435456) × (process < 268435456) }
    requires named { is_process piece.now ≡ true → 2 ≤ length piece.now }
    ensures { OnOk result (Puts writes.old.items writes.new.items
        (λ n. row base (laid_piece (moved_to table.now) n place process piece.now))) }
{
    if is_place_piece(piece) {
        put(writes, base, ZERO + 16 * place as u64, ENTRY)?;
        put_moved(writes, table, base + 1, &piece[1..])?;
        return Ok(());
    }
    if is_process_piece(piece) {
        put(writes, base, piece[0], 0)?;
        put(writes, base + 1, ZERO + 16 * process as u64, ENTRY)?;
        put_moved(writes, table, base + 2, &piece[2..])?;
        return Ok(());
    }
    put_moved(writes, table, base, piece)?;
    Ok(())
}

/// The number of the next place, or of the next process.
fn next(count: u32, is: bool) -> u32
    requires { count < 268435456 }
    ensures { result ≡ (if is then suc count else count) }
{
    if is { count + 1 } else { count }
}

/// Puts the pieces of these sizes at their new addresses.
pub(crate) fn put_pieces(
    writes: &mut Vec<Written>,
    table: &[u32],
    own: &[u64],
    sizes: &[u32],
) -> Result<(), NoMemory>
    requires size { length table.now ≡ total sizes.now }
    requires own { length own.now ≡ total sizes.now }
    requires few { (length table.now < 268435456) × (length sizes.now < 268435455) }
    requires low { (i t : ℕ) → slice_get table.now i ≡ Some t → t < 4000000000 }
    requires named { AreNamed (cuts sizes.now own.now) }
    ensures { OnOk result (Puts writes.old.items writes.new.items
        (λ n. laid_rows (moved_to table.now) n 1 1 4000000000 (cuts sizes.now own.now))) }
{
    let mut rest = own;
    let mut first = 0;
    let mut place = 1;
    let mut process = 1;
    for &size in sizes {
        let piece = &rest[..size as usize];
        let base = goes_to(table, OWN + first);
        put_piece(writes, table, base, piece, place, process)?;
        place = next(place, is_place_piece(piece));
        process = next(process, is_process_piece(piece));
        first += size;
        rest = &rest[size as usize..];
    }
    Ok(())
}
