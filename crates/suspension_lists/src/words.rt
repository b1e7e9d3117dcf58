//! Words of the store, and what the words of waiting lists say.
ghost use Rattle.std.specs.Prelude.{◌≡◌, ◌≤◌, Some, IfOk, OnOk};
ghost use Rattle.heap_words.specs.Cells.{decoded};
ghost use Rattle.heap_words.specs.Trails.{word_at, Holds, KeepsLoads};
ghost use Rattle.suspension_lists.specs.Cells.{list_of, link_of, number_of, process_of, waits_by};

use fcp_model::NoMemory;
use heap_words::{Cell, Stand, Trail, Words, decode};

/// The word at an address of the store, which is kept from now on.
pub(crate) fn stored<W: Words>(trail: &mut Trail, words: &mut W, addr: u32) -> Result<u64, NoMemory>
    requires sound { W.sound words.old }
    requires known { W.knows words.old addr }
    requires holds { Holds W.had W.leads trail.old.kept trail.old.binds words.old }
    requires store { W.addresses words.old ≤ 4000000000 }
    ensures between { W.later words.old words.new }
    ensures loaded { OnOk result (KeepsLoads W.sound W.had W.leads W.later W.gave trail.old.kept trail.old.binds words.old
        trail.new.kept trail.new.binds words.new) }
    ensures binds { trail.new.binds ≡ trail.old.binds }
    ensures reads { trail.new.reads.items ≡ trail.old.reads.items }
    ensures kept { IfOk result (λ x. word_at trail.new.kept addr ≡ Some x) }
{
    let word = trail.word(words, addr)?;
    Ok(word)
}

/// The first entry of the waiting list of the place with this word, and 0 where none waits.
pub(crate) fn list_in(word: u64) -> u32
    ensures { result ≡ list_of (decoded word) }
{
    match decode(word) {
        Some(Cell::Unbound(first)) => first,
        _ => 0,
    }
}

/// The entry to which a link leads, and 0 where it leads to none.
pub(crate) fn link_in(word: u64) -> u32
    ensures { result ≡ link_of (decoded word) }
{
    match decode(word) {
        Some(Cell::Cons(next)) => next,
        _ => 0,
    }
}

/// The number that a word says, and 0 where it says none from 0 on.
pub(crate) fn number_in(word: u64) -> u64
    ensures { result ≡ number_of (decoded word) }
{
    match decode(word) {
        Some(Cell::Small(number)) => if number >= 0 { number as u64 } else { 0 },
        _ => 0,
    }
}

/// The process that an entry's first word says.
pub(crate) fn process_in(word: u64) -> Option<u32>
    ensures { result ≡ process_of (decoded word) }
{
    match decode(word) {
        Some(Cell::Raw(process)) => Some(process),
        _ => None,
    }
}

/// Whether a status is that of a process which waits by the hang of this number.
pub(crate) fn is_waiting_by(number: u64, status: u64) -> bool
    ensures { result ≡ waits_by number (decoded status) }
{
    match decode(status) {
        Some(Cell::Status(Stand::Waiting(hang))) => hang as u64 == number,
        _ => false,
    }
}
