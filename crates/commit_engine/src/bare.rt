//! Entries without words: controls, and the fails of processes.
ghost use Rattle.std.specs.Prelude.{◌≡◌, ◌<◌, ◌≤◌, false};
ghost use Rattle.fcp_model.specs.Bounds.{act_entry};
ghost use Rattle.fcp_model.specs.declared.run.Entry.TheVariants.{Fail};
ghost use Rattle.commit_engine.specs.Halls.{commits_of, moves_of};
ghost use Rattle.commit_engine.specs.Bare.{IsNoted};

use crate::hall::Hall;
use fcp_model::{Act, Entry, Proc};
use std::alloc::Global;
use word_moves::WordMove;

/// The entry of a control.
fn entry_of(act: Act) -> Entry
    ensures { result ≡ act_entry act }
{
    match act {
        Act::Snapshot => Entry::Snapshot,
        Act::Suspend => Entry::Suspend,
        Act::Resume => Entry::Resume,
        Act::Abort => Entry::Abort,
    }
}

/// Makes an entry without words of the process at an address, and answers its number. It takes no memory.
fn note<H: Hall>(alloc: Global, hall: &mut H, entry: Entry, address: u32) -> u64
    requires sound { H.sound hall.old }
    requires idle { H.due hall.old ≡ false }
    requires room { 0 < H.spare hall.old }
    requires commits { commits_of entry ≤ (H.purse hall.old).commits }
    requires moves { moves_of entry ≤ (H.purse hall.old).moves }
    ensures { IsNoted H.sound H.page_count H.holds H.due H.purse H.spare H.takes H.added entry address hall.old hall.new result }
{
    let number = hall.stamp(WordMove {
        entry,
        address,
        reads: Vec::new(alloc),
        writes: Vec::new(alloc),
        cells: 0,
    });
    hall.publish();
    number
}

/// Makes the entry of a control, and answers its number, from 1 on. It is no move of a process, and costs the quota nothing; its log has
/// room for it. It takes no memory: `alloc` is that of lists that stay empty.
///
/// Nothing waits to be published behind it, and pages that are held stay so.
pub fn control<H: Hall>(alloc: Global, hall: &mut H, act: Act) -> u64
    requires sound { H.sound hall.old }
    requires idle { H.due hall.old ≡ false }
    requires room { 0 < H.spare hall.old }
    ensures { IsNoted H.sound H.page_count H.holds H.due H.purse H.spare H.takes H.added (act_entry act) 0 hall.old hall.new result }
{
    note(alloc, hall, entry_of(act), 0)
}

/// Makes the fail of the process at an address, for which a turn answered `Fails`, and answers the entry's number, from 1 on. It costs a
/// move, which is left, and the log has room for it. It takes no memory: `alloc` is that of lists that stay empty.
///
/// Nothing waits to be published behind it, and pages that are held stay so.
pub fn fail<H: Hall>(alloc: Global, hall: &mut H, process: Proc, address: u32) -> u64
    requires sound { H.sound hall.old }
    requires idle { H.due hall.old ≡ false }
    requires room { 0 < H.spare hall.old }
    requires moves { 0 < (H.purse hall.old).moves }
    ensures { IsNoted H.sound H.page_count H.holds H.due H.purse H.spare H.takes H.added (Fail process) address hall.old hall.new result }
{
    note(alloc, hall, Entry::Fail { process }, address)
}
