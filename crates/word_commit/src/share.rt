ghost use Rattle.std.specs.Prelude.{◌≡◌, ◌<◌, []};
ghost use Rattle.word_commit.specs.Shows.{IsSeatOf, view_of, spare_of};
ghost use Rattle.word_commit.specs.Views.{shared, part};
ghost use Rattle.word_commit.specs.Conditions.{IsWithin};
ghost use Rattle.word_commit.specs.Calls.{MatchShared};

use crate::fits::Fits;
use crate::journal::Journal;
use crate::law::{Cut, Portion};
use crate::quota::Quota;
use crate::stamp::less;
use crate::store::{Seat, Store, Token};
use std::alloc::Global;
use std::marker::Brand;

/// A seat and one that was shared of it, or the seat as it was.
#[derive(Drop)]
pub enum Shared<S> {
    Two(S, S),
    NoMemory(S),
}

impl<F: Fits> Store<F> {
    fn share_as<N: Portion>(&self, token: &mut Token<F::Entry>, quota: Quota) -> Token<F::Entry>
        requires quota { N.quota ≡ quota }
        requires token { token.old.table_id ≡ self.now.table.shared.table_id }
        requires rights { 1 < token.old.me.0.purse.rights }
        requires within { IsWithin quota token.old.me.0 }
        ensures tokens { (token.new.table_id ≡ token.old.table_id) × (result.table_id ≡ token.old.table_id) }
        ensures left { token.new.me ≡ (shared token.old.me.0 quota, token.old.me.1) }
        ensures right { result.me ≡ (part token.old.me.0 quota, []) }
    {
        let _ = quota;
        self.table.shared.split_seat::<Cut<N>>(token)
    }

    /// A second seat, with this quota, and with room for as many entries as it has moves.
    pub fn share(&self, alloc: Global, seat: Seat<F>, quota: Quota) -> Shared<Seat<F>>
        requires seat { IsSeatOf self.now seat }
        requires rights { 1 < (view_of seat).purse.rights }
        requires within { IsWithin quota (view_of seat) }
        requires free { (view_of seat).grip.held ≡ [] }
        ensures seats { MatchShared result
            (λ a b. IsSeatOf self.now a × IsSeatOf self.now b)
            (λ a. IsSeatOf self.now a) }
        ensures views { MatchShared result
            (λ a b. (view_of a ≡ shared (view_of seat) quota) × (view_of b ≡ part (view_of seat) quota))
            (λ a. view_of a ≡ view_of seat) }
        ensures spare { MatchShared result (λ a b. (spare_of a ≡ spare_of seat) × (spare_of b ≡ quota.moves))
            (λ a. spare_of a ≡ spare_of seat) }
    {
        let spare = quota.moves as usize;
        let Ok(journal) = Journal::with_room(alloc, spare) else {
            return Shared::NoMemory(seat);
        };
        let mut seat = seat;
        let token = self.share_as::<Brand>(&mut seat.token, quota);
        seat.funds = less(seat.funds, quota);
        let other = Seat {
            token,
            journal,
            pending: None,
            funds: quota,
            spare,
        };
        Shared::Two(seat, other)
    }
}
