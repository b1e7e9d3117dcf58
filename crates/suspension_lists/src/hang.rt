//! What a hang lays for the places on which its process waits.
ghost use Rattle.std.specs.Prelude.{◌≡◌, ◌++◌, [], ◌∷◌, OnOk};
ghost use Rattle.word_states.specs.Layouts.{link_word};
ghost use Rattle.suspension_lists.specs.Hangs.{open_entry, open_entries};

use crate::words::list_in;
use fcp_model::NoMemory;
use heap_words::{Cell, encode};

/// The link to an entry, or to none where the address is 0.
fn link_to(first: u32) -> u64
    ensures { result ≡ link_word first }
{
    if first == 0 {
        encode(Cell::Nil)
    } else {
        encode(Cell::Cons(first))
    }
}

/// Puts a word at the end of a list.
fn push(pieces: &mut Vec<u64>, word: u64) -> Result<(), NoMemory>
    ensures { OnOk result (pieces.new.items ≡ pieces.old.items ++ word ∷ []) }
{
    match pieces.push(word) {
        Ok(()) => Ok(()),
        Err(_) => Err(NoMemory),
    }
}

/// Puts the waiting entry of a process before the list that begins at an address.
fn push_entry(pieces: &mut Vec<u64>, process: u32, first: u32) -> Result<(), NoMemory>
    ensures { OnOk result (pieces.new.items ≡ pieces.old.items ++ open_entry process first) }
{
    push(pieces, encode(Cell::Raw(process)))?;
    push(pieces, 0)?;
    push(pieces, link_to(first))?;
    Ok(())
}

/// Puts the pieces that a hang of a process on these places lays at the end of a list: one waiting entry of three words for each
/// place, before the list of those that wait there already. A place stands with its word. The second word of each entry is 0 in
/// place of the number that the hang has not yet. Where memory runs out, some of the entries may be there.
pub fn hang_pieces(
    pieces: &mut Vec<u64>,
    process: u32,
    places: &[(u32, u64)],
) -> Result<(), NoMemory>
    ensures { OnOk result (pieces.new.items ≡ pieces.old.items ++ open_entries process places.now) }
{
    for place in places {
        push_entry(pieces, process, list_in(place.1))?;
    }
    Ok(())
}
