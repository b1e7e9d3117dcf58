//! The plan of a fail.
ghost use Rattle.std.specs.Prelude.{◌≡◌, ◌<◌};
ghost use Rattle.word_moves.specs.Planned.{process_of, IsFailMove};
ghost use Rattle.move_plans.specs.Plans.{move_of};

use crate::planner::Planner;
use fcp_model::{Entry, Proc};

/// The process of whose name the word says this number.
pub(crate) fn process_by(name: u64) -> Proc
    requires { name < 36028797018963968 }
    ensures { result ≡ process_of name }
{
    Proc {
        entry: (name / 268_435_456) as u32,
        number: (name % 268_435_456) as u32,
    }
}

impl Planner {
    /// Puts the fail of a process: nothing is written.
    pub(crate) fn put_fail(&mut self, process: u32, name: u64)
        requires { name < 36028797018963968 }
        ensures { IsFailMove (move_of self.new process) self.old.machine.trail.kept process name }
    {
        self.writes.clear();
        self.children.clear();
        self.woken.clear();
        self.bound.clear();
        self.waits.clear();
        self.cells = 0;
        self.entry = Entry::Fail {
            process: process_by(name),
        };
    }
}
