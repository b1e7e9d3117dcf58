ghost use Rattle.std.specs.Prelude.{◌≡◌, Option, List, ℕ};
ghost use Rattle.logix_edge.specs.Shelves.{Entries, IsFetch};

use std::alloc::Global;

/// What a shelf answers to a fetch.
#[derive(Debug, Drop)]
pub enum Fetched {
    /// The bytes under the name, at most as many as the limit.
    Bytes(Vec<u8>),
    /// There are more bytes under the name than the limit.
    TooLong,
    /// A fault of the outside, which the shelf has counted: a lacking name, or an error of the system.
    Failed,
    /// Memory ran out, for the bytes or for a copy of the name. It is no fault of the outside.
    NoMemory,
}

/// Named texts that a program reads from.
pub trait Shelf {
    /// The bytes that it holds under each name, where it tells them.
    ghost held: { Self → Option Entries };

    /// How many faults it has counted, up to 2^64 - 1. The count never falls.
    ghost faults: { Self → ℕ };

    /// The name of the last fetch that failed, if one has failed.
    ghost last_failed: { Self → Option (List ℕ) };

    /// The bytes under a name, unless there are more than `limit`.
    fn fetch(&mut self, alloc: Global, name: &str, limit: u64) -> Fetched
        ensures same { held self.new ≡ held self.old }
        ensures fetch { IsFetch (held self.old) (faults self.old) (faults self.new)
            (last_failed self.old) (last_failed self.new) name.now limit result };
}
