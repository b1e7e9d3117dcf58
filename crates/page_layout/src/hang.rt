//! What a hang writes.
ghost use Rattle.std.specs.Prelude.{◌≡◌, ℕ, ◌+◌, ◌*◌, ◌<◌, length, OnOk, slice_get, Some};
ghost use Rattle.word_states.specs.Words.{AreApart, row};
ghost use Rattle.word_states.specs.Layouts.{link_word, entry_words};
ghost use Rattle.word_states.specs.Planning.{hang_writes};
ghost use Rattle.page_layout.specs.Laying.{moved_to, IsLaid, tops_of};
ghost use Rattle.page_layout.specs.Hangs.{threes, entry_of, heads_at, entries_at};
ghost use Rattle.page_layout.specs.Writing.{written, Puts};

use crate::commit::put_tops;
use crate::moves::goes_to;
use crate::pieces::{ZERO, put};
use crate::rooms::Room;
use crate::written::Written;
use fcp_model::NoMemory;
use heap_words::{Cell, OWN, encode};

/// The word of the status of a process that waits by entry 0, and what it grows by from one entry to the next.
const WAITING: u64 = 41;

const STEP: u64 = 16;

/// How many words a waiting entry has.
const ENTRY: u32 = 3;

/// The link to an entry, or to none where the address is 0.
fn link_to(first: u32) -> u64
    ensures { result ≡ link_word first }
{
    if first == 0 {
        encode(Cell::Nil)
    } else {
        encode(Cell::Cons(first))
    }
}

/// Puts the places with the new first entries of their lists.
fn put_heads(writes: &mut Vec<Written>, table: &[u32], lists: &[(u32, u32)]) -> Result<(), NoMemory>
    requires { length lists.now < 89478485 }
    ensures { OnOk result (Puts writes.old.items writes.new.items (λ n. heads_at table.now 0 lists.now)) }
{
    let mut first = 0;
    for list in lists {
        let entry = goes_to(table, OWN + first);
        put(writes, list.0, encode(Cell::Unbound(entry)), 0)?;
        first += ENTRY;
    }
    Ok(())
}

/// Puts a waiting entry: its process, its number and its link.
fn put_entry(writes: &mut Vec<Written>, base: u32, process: u32, first: u32) -> Result<(), NoMemory>
    requires { base + 3 < 4294967296 }
    ensures { OnOk result (Puts writes.old.items writes.new.items (λ n. row base (entry_words n process first))) }
{
    put(writes, base, encode(Cell::Raw(process)), 0)?;
    put(writes, base + 1, ZERO, STEP)?;
    put(writes, base + 2, link_to(first), 0)?;
    Ok(())
}

/// Puts the waiting entries, one for each place, before the list that was there.
fn put_entries(
    writes: &mut Vec<Written>,
    table: &[u32],
    process: u32,
    lists: &[(u32, u32)],
) -> Result<(), NoMemory>
    requires size { length table.now ≡ 3 * length lists.now }
    requires few { length lists.now < 89478485 }
    requires low { (i t : ℕ) → slice_get table.now i ≡ Some t → t < 4000000000 }
    ensures { OnOk result (Puts writes.old.items writes.new.items (λ n. entries_at table.now n process 0 lists.now)) }
{
    let mut first = 0;
    for list in lists {
        let base = goes_to(table, OWN + first);
        put_entry(writes, base, process, list.1)?;
        first += ENTRY;
    }
    Ok(())
}

/// Puts all writes of a hang, and drops what was in their list: the process's status, the places with the new first entries of their
/// lists, the tops and the waiting entries. A place stands with the first entry of its list, or 0 where it has none.
pub fn put_hang(
    writes: &mut Vec<Written>,
    rooms: &[Room],
    table: &[u32],
    process: u32,
    lists: &[(u32, u32)],
) -> Result<(), NoMemory>
    requires laid { IsLaid rooms.now table.now (threes (length lists.now)) }
    requires few { length lists.now < 89478485 }
    requires once { AreApart lists.now }
    ensures { OnOk result ((n : ℕ) → written n writes.new.items ≡ hang_writes (entry_of table.now lists.now) n process lists.now
        (tops_of rooms.now)) }
{
    writes.clear();
    put(writes, process, WAITING, STEP)?;
    put_heads(writes, table, lists)?;
    put_tops(writes, rooms)?;
    put_entries(writes, table, process, lists)?;
    Ok(())
}
