//! What is answered to the words of a call, over the file that they name.
ghost use Rattle.std.specs.Prelude.{◌≡◌, ◌≤◌, IsTrue, IfOk, length, map, List, ℕ};
ghost use Rattle.std.specs.String.{string_bytes};
ghost use Rattle.logix_app.specs.Answers.{AnswersOrder};
ghost use Rattle.logix_app.specs.Headline.{Answers};
ghost use Rattle.command_words.specs.Readings.{has_words, IsReading};
ghost use Rattle.logix_app.specs.Parts.{text_of, AsksWithin};

use crate::Status;
use crate::answer::Answer;
use crate::loading::{answer_run, answer_show};
use command_words::{Order, WordFault, read_words};
use fcp_model::NoMemory;
use logix_edge::{Fetched, Shelf};
use std::alloc::Global;

/// The most bytes of a file.
const MOST_FILE_BYTES: u64 = 1_048_576;

/// The answer to the words.
pub fn answer_of<S: Shelf>(
    alloc: Global,
    words: &[String],
    shelf: &mut S,
) -> Result<Answer, NoMemory>
    ensures same { S.held shelf.new ≡ S.held shelf.old }
    ensures answer { IfOk result (λ a. Answers (map string_bytes words.now) (S.held shelf.old) (S.faults shelf.old) (S.faults shelf.new)
        (S.last_failed shelf.new) a.status (text_of a.output)) }
{
    match read_words(alloc, words) {
        Ok(order) => answer_order(alloc, &order, shelf),
        Err(WordFault::Usage) => Ok(Answer::line(Status::Usage, b"logix: usage\n")),
        Err(WordFault::NoMemory) => Err(NoMemory),
    }
}

/// The answer to an order.
fn answer_order<S: Shelf>(alloc: Global, order: &Order, shelf: &mut S) -> Result<Answer, NoMemory>
    requires words { IsTrue (has_words order.now) }
    requires asked { AsksWithin order.now }
    ensures same { S.held shelf.new ≡ S.held shelf.old }
    ensures answer { (words : List (List ℕ)) → IsReading words order.now → IfOk result (λ a.
        Answers words (S.held shelf.old) (S.faults shelf.old) (S.faults shelf.new) (S.last_failed shelf.new) a.status (text_of a.output)) }
{
    match shelf.fetch(alloc, order.file(), MOST_FILE_BYTES) {
        Fetched::Bytes(bytes) => answer_over(alloc, order, bytes.as_slice()),
        Fetched::TooLong => Ok(Answer::line(Status::TooLong, b"logix: too long\n")),
        Fetched::Failed => Ok(Answer::line(Status::Shelf, b"logix: shelf fault\n")),
        Fetched::NoMemory => Err(NoMemory),
    }
}

/// The answer to an order, over the bytes of its file.
fn answer_over(alloc: Global, order: &Order, file: &[u8]) -> Result<Answer, NoMemory>
    requires few { length file.now ≤ 1048576 }
    requires words { IsTrue (has_words order.now) }
    requires asked { AsksWithin order.now }
    ensures { IfOk result (λ a. AnswersOrder order.now file.now a.status (text_of a.output)) }
{
    match order {
        Order::Run {
            file: _,
            goal,
            limits,
            control,
        } => answer_run(alloc, file, goal.as_str().as_bytes(), *limits, control),
        Order::Show { file: _ } => answer_show(alloc, file),
    }
}
