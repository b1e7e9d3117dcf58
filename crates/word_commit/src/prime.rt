ghost use Rattle.std.specs.Prelude.{◌≡◌, ◌*◌, ◌<◌, []};
ghost use Rattle.word_commit.specs.Shows.{IsSeatOf, view_of, spare_of, given_of};
ghost use Rattle.word_commit.specs.Views.{primed};
ghost use Rattle.word_commit.specs.Conditions.{IsFree};

use crate::fits::Fits;
use crate::store::{Seat, Store};
use std::marker::Brand;

impl<F: Fits> Store<F> {
    /// Writes a word at or above the top of a held page.
    pub fn prime(&self, seat: &mut Seat<F>, addr: u32, word: u64)
        requires seat { IsSeatOf self.now seat.old }
        requires addr { addr < 1024 * (given_of self.now).pages }
        requires idle { (view_of seat.old).grip.due ≡ [] }
        requires free { IsFree F.means.words (view_of seat.old).grip.known addr }
        ensures seat { IsSeatOf self.now seat.new × (spare_of seat.new ≡ spare_of seat.old) }
        ensures view { view_of seat.new ≡ primed (view_of seat.old) addr word }
    {
        self.table
            .shared
            .store::<Brand>(&mut seat.token, addr as usize, word);
    }
}
