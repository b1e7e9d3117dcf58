ghost use Rattle.std.specs.Prelude.{◌≡◌, ◌*◌, ◌<◌};
ghost use Rattle.word_commit.specs.Shows.{IsSeatOf, view_of, spare_of, given_of};
ghost use Rattle.word_commit.specs.Views.{loaded};
ghost use Rattle.word_commit.specs.Sights.{Tells};

use crate::fits::Fits;
use crate::store::{Seat, Store};
use std::marker::Brand;

impl<F: Fits> Store<F> {
    /// The word at an address, by one load. All that the seat saw at known addresses is of one lawful history.
    pub fn load(&self, seat: &mut Seat<F>, addr: u32) -> u64
        requires seat { IsSeatOf self.now seat.old }
        requires addr { addr < 1024 * (given_of self.now).pages }
        ensures seat { IsSeatOf self.now seat.new × (spare_of seat.new ≡ spare_of seat.old) }
        ensures view { view_of seat.new ≡ loaded F.means (view_of seat.old) addr result }
        ensures tells { Tells F.means (given_of self.now) (view_of seat.old) (view_of seat.new) addr result }
    {
        self.table
            .shared
            .load::<Brand>(&mut seat.token, addr as usize)
    }
}
