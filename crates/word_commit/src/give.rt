ghost use Rattle.std.specs.Prelude.{◌≡◌, ◌≢◌, ◌/◌, ◌<◌, true, ℕ};
ghost use Rattle.word_commit.specs.Shows.{IsSeatOf, view_of, spare_of, given_of};
ghost use Rattle.word_commit.specs.Meanings.{Among};
ghost use Rattle.word_commit.specs.Views.{is_in, gave};

use crate::fits::Fits;
use crate::store::{PAGE, Seat, Store};
use std::marker::Brand;

impl<F: Fits> Store<F> {
    /// Gives a page of which nothing is still to be published.
    pub fn give(&self, seat: &mut Seat<F>, page: u32)
        requires seat { IsSeatOf self.now seat.old }
        requires page { is_in page (view_of seat.old).grip.held ≡ true }
        requires page_there { page < (given_of self.now).pages }
        requires over { (x : ℕ × ℕ) → Among (view_of seat.old).grip.due x → x.0 / 1024 ≢ page }
        ensures seat { IsSeatOf self.now seat.new × (spare_of seat.new ≡ spare_of seat.old) }
        ensures view { view_of seat.new ≡ gave (view_of seat.old) page }
    {
        let word = PAGE * self.pages as usize + page as usize;
        self.table.shared.store::<Brand>(&mut seat.token, word, 0);
    }
}
