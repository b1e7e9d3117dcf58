ghost use Rattle.std.specs.Prelude.{◌≡◌, ◌+◌, ◌-◌, ◌<◌, ◌≤◌, ◌^◌, ℕ, suc, [], None, length};
ghost use Rattle.word_commit.specs.Shows.{IsSeatOf, view_of, spare_of, given_of};
ghost use Rattle.word_commit.specs.Meanings.{Among};
ghost use Rattle.word_commit.specs.Views.{stamped};
ghost use Rattle.word_commit.specs.Conditions.{Affords, MayStamp};

use crate::fits::Fits;
use crate::law::{Turned, Turning};
use crate::quota::Quota;
use crate::store::{PAGE, Seat, Store, Token};
use crate::view::Numbered;
use std::marker::Brand;

/// What is left of a quota after a cost.
pub(crate) fn less(funds: Quota, cost: Quota) -> Quota
    requires { (cost.commits ≤ funds.commits) × (cost.moves ≤ funds.moves) × (cost.cells ≤ funds.cells) }
    ensures { (result.commits ≡ funds.commits - cost.commits) × (result.moves ≡ funds.moves - cost.moves)
        × (result.cells ≡ funds.cells - cost.cells) }
{
    Quota {
        commits: funds.commits - cost.commits,
        moves: funds.moves - cost.moves,
        cells: funds.cells - cost.cells,
    }
}

impl<F: Fits> Seat<F> {
    /// The entry of which nothing is left to publish goes into the journal.
    pub(crate) fn settle(&mut self)
        requires { self.old.token.me.0.grip.due ≡ [] }
        ensures token { (self.new.token.table_id ≡ self.old.token.table_id) × (self.new.token.id ≡ self.old.token.id)
            × (self.new.token.me ≡ self.old.token.me) }
        ensures rest { (self.new.pending ≡ None) × (self.new.spare ≡ self.old.spare) × (self.new.funds ≡ self.old.funds) }
    {
        if let Some(Numbered { number, entry }) = self.pending.take() {
            self.journal.push(number, F::into_logged(entry));
        }
    }
}

impl<F: Fits> Store<F> {
    fn stamp_as<N: Turning<F::Entry>>(&self, token: &mut Token<F::Entry>, entry: &F::Entry) -> u64
        requires next { N.next ≡ (λ v found. stamped F.means v entry.now (suc found)) }
        requires token { token.old.table_id ≡ self.now.table.shared.table_id }
        requires alive { 0 < token.old.me.0.purse.rights }
        requires affords { Affords F.means token.old.me.0 entry.now }
        requires may { (n : ℕ) → n < 2 ^ 32 → MayStamp F.means self.now.table.shared.key token.old.me.0 entry.now n }
        ensures token { (token.new.table_id ≡ token.old.table_id)
            × (token.new.me ≡ (stamped F.means token.old.me.0 entry.now (suc result), token.old.me.1)) }
        ensures number { (result + 1 < 2 ^ 32) × (token.old.me.0.front ≤ result) }
        ensures there { (x : ℕ × ℕ) → Among token.new.me.0.grip.due x → x.0 < token.new.table_id.words }
        ensures few { length token.new.me.0.grip.due < token.new.table_id.words }
    {
        let _ = entry;
        let word = PAGE * self.pages as usize + self.pages as usize;
        self.table.shared.fetch_add::<Turned<N>>(token, word, 1)
    }

    /// Gives the entry its number, by one step on the clock. That number is above all that the seat saw.
    pub fn stamp(&self, seat: &mut Seat<F>, entry: F::Entry) -> u64
        requires seat { IsSeatOf self.now seat.old }
        requires room { 0 < spare_of seat.old }
        requires affords { Affords F.means (view_of seat.old) entry }
        requires may { (n : ℕ) → n < 2 ^ 32 → MayStamp F.means (given_of self.now) (view_of seat.old) entry n }
        ensures seat { IsSeatOf self.now seat.new × (spare_of seat.new + 1 ≡ spare_of seat.old) }
        ensures number { ((view_of seat.old).front < result) × (result < 2 ^ 32) }
        ensures view { view_of seat.new ≡ stamped F.means (view_of seat.old) entry result }
    {
        seat.settle();
        let number = self.stamp_as::<Brand>(&mut seat.token, &entry) + 1;
        seat.funds = less(seat.funds, F::cost(&entry));
        seat.spare -= 1;
        seat.pending = Some(Numbered {
            number: number as u32,
            entry,
        });
        number
    }
}
