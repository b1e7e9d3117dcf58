ghost use Rattle.std.specs.Prelude.{Option, List, ℕ};
ghost use Rattle.logix_edge.specs.Sinks.{IsPut};

use thiserror::Error;

/// What a sink answers to a put.
#[derive(Clone, Copy, Debug, PartialEq, Eq)]
pub enum Put {
    /// The whole piece was taken.
    Done,
    /// A fault of the outside, which the sink has counted. Of the piece only a front was taken, maybe nothing.
    Failed,
}

/// A place that takes bytes in order.
pub trait Sink {
    /// The bytes that it has taken, oldest first, where it tells them.
    ghost written: { Self → Option (List ℕ) };

    /// How many faults it has counted, up to 2^64 - 1. The count never falls.
    ghost faults: { Self → ℕ };

    /// Appends a piece.
    fn put(&mut self, piece: &[u8]) -> Put
        ensures put { IsPut (written self.old) (written self.new) (faults self.old) (faults self.new) piece.now result };
}

/// A sink failed, so not all was written.
#[derive(Clone, Copy, Debug, PartialEq, Eq, Error)]
#[error("the sink failed")]
pub struct SinkFailed;
