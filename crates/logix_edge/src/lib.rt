//! The outside of the system: shelves of named texts and sinks of bytes, each with a count of its faults.
#![tactic(auto)]

mod calls;
mod faults;
mod file_shelf;
mod memory_shelf;
mod memory_sink;
mod out_sink;
mod shelf;
mod sink;
mod streams;

pub use file_shelf::FileShelf;
pub use memory_shelf::MemoryShelf;
pub use memory_sink::MemorySink;
pub use out_sink::OutSink;
pub use shelf::{Fetched, Shelf};
pub use sink::{Put, Sink, SinkFailed};
pub use streams::{read_up_to, write_whole};
