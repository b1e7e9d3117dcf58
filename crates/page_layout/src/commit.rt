//! What a commit writes.
ghost use Rattle.std.specs.Prelude.{◌≡◌, ℕ, ◌+◌, ◌*◌, ◌<◌, length, OnOk, [], ◌∷◌, slice_get, Some};
ghost use Rattle.word_states.specs.Planning.{moved_binds, ready_words, commit_writes};
ghost use Rattle.page_layout.specs.Laying.{moved_to, cuts, AreNamed, IsRoom, IsLaid, tops_of};
ghost use Rattle.page_layout.specs.Writing.{written, Puts};
ghost use Rattle.page_layout.specs.declared.rooms.Room.{Room};

use crate::moves::relocate;
use crate::pieces::{put, put_pieces};
use crate::rooms::{PAGE, Room};
use crate::written::Written;
use fcp_model::NoMemory;
use heap_words::{Cell, encode};

/// The words of two statuses.
const READY: u64 = 9;

const DONE: u64 = 25;

/// Puts the words of bound places.
fn put_binds(writes: &mut Vec<Written>, table: &[u32], binds: &[(u32, u64)]) -> Result<(), NoMemory>
    ensures { OnOk result (Puts writes.old.items writes.new.items (λ n. moved_binds (moved_to table.now) binds.now)) }
{
    for at in 0..binds.len() {
        let word = relocate(table, binds[at].1);
        put(writes, binds[at].0, word, 0)?;
    }
    Ok(())
}

/// Puts the statuses of processes that are woken.
fn put_ready(writes: &mut Vec<Written>, wakes: &[u32]) -> Result<(), NoMemory>
    ensures { OnOk result (Puts writes.old.items writes.new.items (λ n. ready_words wakes.now)) }
{
    for at in 0..wakes.len() {
        put(writes, wakes[at], READY, 0)?;
    }
    Ok(())
}

/// Puts a top, where it rises.
fn put_top(writes: &mut Vec<Written>, room: Room) -> Result<(), NoMemory>
    requires { IsRoom room }
    ensures { OnOk result (Puts writes.old.items writes.new.items (λ n. tops_of (room ∷ []))) }
{
    if room.grew() {
        let word = encode(Cell::Top(room.top));
        put(writes, PAGE * room.page, word, 0)?;
    }
    Ok(())
}

/// Puts the tops that rise.
pub(crate) fn put_tops(writes: &mut Vec<Written>, rooms: &[Room]) -> Result<(), NoMemory>
    requires { (k : ℕ) (r : Room) → slice_get rooms.now k ≡ Some r → IsRoom r }
    ensures { OnOk result (Puts writes.old.items writes.new.items (λ n. tops_of rooms.now)) }
{
    for at in 0..rooms.len() {
        let room = rooms[at];
        put_top(writes, room)?;
    }
    Ok(())
}

/// Puts all writes of a commit, and drops what was in their list: the process's status, the bindings, the statuses of the woken, the
/// tops and the pieces. A binding is a place with its word; the pieces stand one after another in `own` and have these sizes.
pub fn put_commit(
    writes: &mut Vec<Written>,
    rooms: &[Room],
    table: &[u32],
    process: u32,
    binds: &[(u32, u64)],
    wakes: &[u32],
    own: &[u64],
    sizes: &[u32],
) -> Result<(), NoMemory>
    requires laid { IsLaid rooms.now table.now sizes.now }
    requires size { length own.now ≡ length table.now }
    requires few { (length table.now < 268435456) × (length sizes.now < 268435455) }
    requires named { AreNamed (cuts sizes.now own.now) }
    ensures { OnOk result ((n : ℕ) → written n writes.new.items ≡ commit_writes (moved_to table.now) n process binds.now
        (cuts sizes.now own.now) wakes.now (tops_of rooms.now)) }
{
    writes.clear();
    put(writes, process, DONE, 0)?;
    put_binds(writes, table, binds)?;
    put_ready(writes, wakes)?;
    put_tops(writes, rooms)?;
    put_pieces(writes, table, own, sizes)?;
    Ok(())
}
