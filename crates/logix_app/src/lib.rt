//! The program's work: its words, the fetch of the file, the run or the text that is shown, and the writing.
#![tactic(auto)]

ghost use Rattle.std.specs.Prelude.{◌≡◌, map};
ghost use Rattle.std.specs.String.{string_bytes};
ghost use Rattle.logix_app.specs.Headline.{Answers, Writes, Completes};

mod answer;
mod fetching;
mod lines;
mod loading;
mod running;
mod status;
mod writing;

use fetching::answer_of;
use logix_edge::{Put, Shelf, Sink};
pub use status::Status;
use std::alloc::Global;

/// Does what the words ask for. `run FILE GOAL` runs the goal over the module of the file, with one worker, within the limits and
/// with the controls of its options, and puts the report to the sink; `show FILE` puts the module's canonical text. Any other answer
/// but that memory ran out is a line of its own.
pub fn run_alone<S: Shelf, K: Sink>(
    alloc: Global,
    words: &[String],
    shelf: &mut S,
    sink: &mut K,
) -> Status
    ensures same { S.held shelf.new ≡ S.held shelf.old }

    ensures answer { Writes
        (Answers (map string_bytes words.now) (S.held shelf.old) (S.faults shelf.old) (S.faults shelf.new) (S.last_failed shelf.new))
        (K.written sink.old) (K.written sink.new) (K.faults sink.old) (K.faults sink.new) result }

    ensures completes { Completes (map string_bytes words.now) (S.held shelf.old)
        (S.faults shelf.old) (S.faults shelf.new) (K.faults sink.old) (K.faults sink.new) result }
{
    let Ok(answer) = answer_of(alloc, words, shelf) else {
        return Status::NoMemory;
    };
    match answer.put(sink) {
        Put::Done => answer.status,
        Put::Failed => Status::Sink,
    }
}
