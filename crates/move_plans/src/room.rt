//! The room of a move's pieces.
ghost use Rattle.std.specs.Prelude.{◌≡◌, ◌*◌, ◌<◌, ◌≤◌, ℕ, [], true, OnOk, IfOk};
ghost use Rattle.safe_tries.specs.Stored.{IsStored};
ghost use Rattle.trial_machine.specs.Stores.{Loads};
ghost use Rattle.move_plans.specs.Rooms.{HasRoom};

use fcp_model::NoMemory;
use heap_words::{Trail, Words};
use page_layout::{Room, lay};

/// Lays pieces of these sizes into pages before `pages` and from `from` on, where nothing is bound, and answers whether all found room.
fn lay_from<W: Words>(
    trail: &mut Trail,
    words: &mut W,
    rooms: &mut Vec<Room>,
    table: &mut Vec<u32>,
    from: u32,
    pages: u32,
    sizes: &[u32],
) -> Result<bool, NoMemory>
    requires stored { IsStored W.addresses W.sound W.had W.shown W.later trail.old.kept words.old }
    requires free { trail.old.binds ≡ [] }
    requires small { pages ≤ 3906250 }
    requires from { from ≤ pages }
    requires known { (p : ℕ) → p < pages → W.knows words.old (1024 * p) }
    ensures between { W.later words.old words.new }
    ensures loaded { OnOk result (Loads W.addresses W.sound W.had W.shown W.later W.gave trail.old.kept words.old trail.new.kept
        words.new) }
    ensures binds { trail.new.binds ≡ trail.old.binds }
    ensures room { IfOk result (λ t. t ≡ true → HasRoom trail.new.kept rooms.new.items table.new.items sizes.now) }
{
    let laid = lay(words, trail, rooms, table, from, pages, sizes)?;
    Ok(laid)
}

/// Lays pieces of these sizes by first fit into the pages from `open` on, and where that fails from the first one on; the answer is
/// whether all found room.
pub(crate) fn find_room<W: Words>(
    trail: &mut Trail,
    words: &mut W,
    rooms: &mut Vec<Room>,
    table: &mut Vec<u32>,
    open: u32,
    pages: u32,
    sizes: &[u32],
) -> Result<bool, NoMemory>
    requires stored { IsStored W.addresses W.sound W.had W.shown W.later trail.old.kept words.old }
    requires free { trail.old.binds ≡ [] }
    requires small { pages ≤ 3906250 }
    requires known { (p : ℕ) → p < pages → W.knows words.old (1024 * p) }
    ensures between { W.later words.old words.new }
    ensures loaded { OnOk result (Loads W.addresses W.sound W.had W.shown W.later W.gave trail.old.kept words.old trail.new.kept
        words.new) }
    ensures binds { trail.new.binds ≡ trail.old.binds }
    ensures room { IfOk result (λ t. t ≡ true → HasRoom trail.new.kept rooms.new.items table.new.items sizes.now) }
{
    let from = if open < pages { open } else { pages };
    let laid = lay_from(trail, words, rooms, table, from, pages, sizes)?;
    if laid || from == 0 {
        return Ok(laid);
    }
    let laid_anew = lay_from(trail, words, rooms, table, 0, pages, sizes)?;
    Ok(laid_anew)
}
