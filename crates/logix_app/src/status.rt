ghost use Rattle.std.specs.Prelude.{◌≡◌};
ghost use Rattle.logix_app.specs.Statuses.{outcome_number, status_number};

use fcp_model::{Fault, Outcome};

/// How a call of the program ended.
#[derive(Clone, Copy, Debug, PartialEq, Eq)]
pub enum Status {
    /// The goal was run, and the run ended so.
    Ended(Outcome),
    /// The module was shown.
    Shown,
    /// The words are neither `run FILE GOAL` nor `show FILE`.
    Usage,
    /// The module has a fault, this one first.
    Module(Fault),
    /// The module has none, and the goal has a fault, this one first.
    Goal(Fault),
    /// Both have none, and the control text has its fault at this place, in bytes from 0.
    Control { at: u32 },
    /// The shelf counted a fault.
    Shelf,
    /// The file has more bytes than the limit.
    TooLong,
    /// The sink counted a fault, so not all was written.
    Sink,
    /// Memory ran out.
    NoMemory,
}

impl Status {
    /// The number that the program gives to its caller.
    pub fn number(&self) -> u8
        ensures { result ≡ status_number self.now }
    {
        match self {
            Status::Ended(outcome) => number_of(*outcome),
            Status::Shown => 0,
            Status::Usage => 2,
            Status::Module(_) => 3,
            Status::Goal(_) => 4,
            Status::Control { .. } => 5,
            Status::Shelf => 6,
            Status::TooLong => 7,
            Status::Sink => 13,
            Status::NoMemory => 14,
        }
    }
}

/// The number of a run that ended.
fn number_of(outcome: Outcome) -> u8
    ensures { result ≡ outcome_number outcome }
{
    match outcome {
        Outcome::Terminated => 0,
        Outcome::Failed => 1,
        Outcome::Suspended => 8,
        Outcome::Budget => 9,
        Outcome::Full => 10,
        Outcome::Aborted => 11,
        Outcome::Held => 12,
    }
}
