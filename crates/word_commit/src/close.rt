ghost use Rattle.std.specs.Prelude.{◌≡◌, []};
ghost use Rattle.word_commit.specs.Shows.{IsSeatOf, view_of, given_of};
ghost use Rattle.word_commit.specs.Views.{all_rights};
ghost use Rattle.word_commit.specs.Closings.{Closes};
ghost use Rattle.word_commit.specs.ClosedWords.{closed_words};

use crate::closed::{Closed, ClosedWords};
use crate::fits::Fits;
use crate::store::{PAGE, Seat, Store};
use fcp_model::Seq;

impl<F: Fits> Store<F> {
    /// The words and the log, when no other seat is left.
    pub fn close(self, seat: Seat<F>) -> Closed<F::Logged>
        requires seat { IsSeatOf self seat }
        requires alone { (view_of seat).purse.rights ≡ all_rights }
        requires free { (view_of seat).grip.held ≡ [] }
        requires idle { (view_of seat).grip.due ≡ [] }
        ensures { Closes F.means F.logged (given_of self) (view_of seat) (closed_words result.words) result.log }
    {
        let mut seat = seat;
        seat.settle();
        let Seat {
            token,
            journal,
            pending: _,
            funds: _,
            spare: _,
        } = seat;
        let Store { table, pages } = self;
        let words = ClosedWords {
            table: table.close_with(token),
            len: PAGE * pages as usize,
        };
        let mut journal = journal;
        journal.arrange();
        Closed {
            words,
            log: Seq::of(journal.into_entries()),
        }
    }
}
