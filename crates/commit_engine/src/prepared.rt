//! All that the making of an entry needs, for which memory is taken before its first page is.
ghost use Rattle.std.specs.Prelude.{◌≡◌, IfOk, IfSome};
ghost use Rattle.word_moves.specs.Planned.{IsSafeMove};
ghost use Rattle.move_plans.specs.Plans.{move_of};
ghost use Rattle.commit_engine.specs.Finishing.{IsPrepared};

use crate::pages::needed_pages;
use crate::placing::new_places;
use fcp_model::NoMemory;
use move_plans::Planner;
use std::alloc::Global;
use std::mem;
use word_moves::WordMove;

/// An entry with its pages, where one may stand more than once, and its new places.
#[derive(Drop)]
pub(crate) struct Prepared {
    pub(crate) entry: WordMove,
    pub(crate) pages: Vec<u32>,
    pub(crate) places: Vec<u32>,
}

/// A copy of what was read.
fn copied(alloc: Global, reads: &[(u32, u64)]) -> Result<Vec<(u32, u64)>, NoMemory>
    ensures { IfOk result (λ v. v.items ≡ reads.now) }
{
    let mut copy = Vec::new(alloc);
    match copy.extend_from_slice(reads) {
        Ok(()) => Ok(copy),
        Err(_) => Err(NoMemory),
    }
}

/// Prepares the entry of the move that is planned. Its writes are taken from the planner. `None` where memory runs out, and where a place
/// that is written is neither new nor was read, which no plan has.
pub(crate) fn prepare(planner: &mut Planner, process: u32) -> Option<Prepared>
    requires { IsSafeMove (move_of planner.old process) }
    ensures { IfSome result (IsPrepared planner.old planner.new process) }
{
    let alloc = *planner.writes.allocator();
    let Ok(reads) = copied(alloc, planner.machine.trail.kept_words()) else {
        return None;
    };
    let Ok(pages) = needed_pages(alloc, reads.as_slice(), planner.writes.as_slice()) else {
        return None;
    };
    let Ok(Some(places)) = new_places(alloc, &planner.machine.trail, planner.writes.as_slice())
    else {
        return None;
    };
    let writes = mem::replace(&mut planner.writes, Vec::new(alloc));
    Some(Prepared {
        entry: WordMove {
            entry: planner.entry,
            address: process,
            reads,
            writes,
            cells: planner.cells,
        },
        pages,
        places,
    })
}
