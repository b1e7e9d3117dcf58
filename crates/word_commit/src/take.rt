ghost use Rattle.std.specs.Prelude.{◌≡◌, ◌<◌, false};
ghost use Rattle.word_commit.specs.Shows.{IsSeatOf, view_of, spare_of, given_of};
ghost use Rattle.word_commit.specs.Views.{all_rights, is_in, took};
ghost use Rattle.word_commit.specs.Calls.{MatchTaken};

use crate::fits::Fits;
use crate::store::{PAGE, Seat, Store};
use crate::taken::Taken;
use std::marker::Brand;

impl<F: Fits> Store<F> {
    /// Asks for a page, by one swap of the page's word. Busy comes exactly where that word was found to be 1.
    pub fn take(&self, seat: &mut Seat<F>, page: u32) -> Taken
        requires seat { IsSeatOf self.now seat.old }
        requires page { page < (given_of self.now).pages }
        requires other { is_in page (view_of seat.old).grip.held ≡ false }
        ensures seat { IsSeatOf self.now seat.new × (spare_of seat.new ≡ spare_of seat.old) }
        ensures view { MatchTaken result (view_of seat.new ≡ took (view_of seat.old) page 0)
            (view_of seat.new ≡ took (view_of seat.old) page 1) }
        ensures alone { (view_of seat.old).purse.rights ≡ all_rights → result ≡ Taken.Got }
    {
        let word = PAGE * self.pages as usize + page as usize;
        let found = self.table.shared.swap::<Brand>(&mut seat.token, word, 1);
        if found == 1 { Taken::Busy } else { Taken::Got }
    }
}
