ghost use Rattle.std.specs.Prelude.{◌≡◌};
ghost use Rattle.logix_edge.specs.Sinks.{IsPut};
ghost use Rattle.logix_app.specs.Parts.{text_of};

use crate::Status;
use crate::writing::{put_all, put_module};
use fcp_model::{Loaded, Names};
use logix_edge::{Put, Sink};

/// A status with what is printed.
#[derive(Drop)]
pub struct Answer {
    pub status: Status,
    pub output: Output,
}

/// What is printed.
#[derive(Drop)]
pub enum Output {
    /// A line that is the same in each call.
    Line(&'static [u8]),
    /// A text of this call.
    Text(Vec<u8>),
    /// The canonical text of a module, whose strings these are.
    Module(Names, Loaded),
}

impl Answer {
    /// An answer by a line that is the same in each call.
    pub fn line(status: Status, line: &'static [u8]) -> Answer
        ensures status { result.status ≡ status }
        ensures text { text_of result.output ≡ line.now }
    {
        Answer {
            status,
            output: Output::Line(line),
        }
    }

    /// Puts what is printed to a sink.
    pub fn put<K: Sink>(&self, sink: &mut K) -> Put
        ensures { IsPut (K.written sink.old) (K.written sink.new) (K.faults sink.old) (K.faults sink.new) (text_of self.now.output) result }
    {
        match &self.output {
            Output::Line(line) => put_all(sink, line),
            Output::Text(text) => put_all(sink, text.as_slice()),
            Output::Module(names, loaded) => put_module(names, loaded, sink),
        }
    }
}
