ghost use Rattle.std.specs.Prelude.{◌≡◌, ◌+◌, ◌<◌, ◌≤◌, ◌^◌, [], length};
ghost use Rattle.word_commit.specs.Shows.{IsSeatOf, view_of, spare_of};
ghost use Rattle.word_commit.specs.Views.{joined};

use crate::fits::Fits;
use crate::law::Both;
use crate::quota::Quota;
use crate::store::{Seat, Store, Token};
use std::marker::Brand;

/// Two quotas together.
fn more(funds: Quota, other: Quota) -> Quota
    requires { (funds.commits + other.commits < 2 ^ 32) × (funds.moves + other.moves < 2 ^ 32) × (funds.cells + other.cells < 2 ^ 32) }
    ensures { (result.commits ≡ funds.commits + other.commits) × (result.moves ≡ funds.moves + other.moves)
        × (result.cells ≡ funds.cells + other.cells) }
{
    Quota {
        commits: funds.commits + other.commits,
        moves: funds.moves + other.moves,
        cells: funds.cells + other.cells,
    }
}

impl<F: Fits> Store<F> {
    /// A load that tells that a seat has no more left than the store was made with.
    fn audit(&self, token: &mut Token<F::Entry>)
        requires { token.old.table_id ≡ self.now.table.shared.table_id }
        ensures token { (token.new.table_id ≡ token.old.table_id) × (token.new.me ≡ token.old.me) }
        ensures small { (token.new.me.0.purse.commits < 2 ^ 32) × (token.new.me.0.purse.moves < 2 ^ 32)
            × (token.new.me.0.purse.cells < 2 ^ 32) }
    {
        self.table.shared.load::<Brand>(token, 0);
    }

    /// One seat with the entries, the quota and the rights of both.
    pub fn join(&self, seat: Seat<F>, other: Seat<F>) -> Seat<F>
        requires seat { IsSeatOf self.now seat }
        requires other { IsSeatOf self.now other }
        requires free { ((view_of seat).grip.held ≡ []) × ((view_of other).grip.held ≡ []) }
        requires idle { ((view_of seat).grip.due ≡ []) × ((view_of other).grip.due ≡ []) }
        requires room { length (view_of other).entries ≤ spare_of seat }
        ensures seat { IsSeatOf self.now result }
        ensures view { view_of result ≡ joined (view_of seat) (view_of other) }
        ensures spare { spare_of result + length (view_of other).entries ≡ spare_of seat }
    {
        let mut seat = seat;
        let mut other = other;
        seat.settle();
        other.settle();
        let Seat {
            token,
            journal,
            pending: _,
            funds,
            spare: _,
        } = other;
        self.table.shared.join_seat::<Both>(&mut seat.token, token);
        self.audit(&mut seat.token);
        seat.funds = more(seat.funds, funds);
        seat.spare -= journal.len();
        seat.journal.append(journal);
        seat
    }
}
