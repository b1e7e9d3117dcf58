ghost use Rattle.std.specs.Prelude.{◌≡◌, ◌≤◌};
ghost use Rattle.word_commit.specs.Shows.{IsSeatOf, view_of, spare_of, given_of};
ghost use Rattle.word_commit.specs.Views.{clocked};
ghost use Rattle.word_commit.specs.Sights.{Sees};

use crate::fits::Fits;
use crate::store::{PAGE, Seat, Store};
use std::marker::Brand;

impl<F: Fits> Store<F> {
    /// How many entries there are, by one load: not fewer than the seat saw before.
    pub fn clock(&self, seat: &mut Seat<F>) -> u64
        requires seat { IsSeatOf self.now seat.old }
        ensures seat { IsSeatOf self.now seat.new × (spare_of seat.new ≡ spare_of seat.old) }
        ensures view { view_of seat.new ≡ clocked (view_of seat.old) result }
        ensures rose { (view_of seat.old).front ≤ result }
        ensures sees { Sees F.means (given_of self.now) (view_of seat.new) }
    {
        let word = PAGE * self.pages as usize + self.pages as usize;
        self.table.shared.load::<Brand>(&mut seat.token, word)
    }
}
