ghost use Rattle.std.specs.Prelude.{◌≡◌, ◌+◌, ◌<◌, ◌≤◌, ◌^◌, ℕ, [], length};
ghost use Rattle.word_commit.specs.Shows.{IsSeatOf, view_of, spare_of};
ghost use Rattle.word_commit.specs.Meanings.{Among};
ghost use Rattle.word_commit.specs.Views.{all_published};

use crate::fits::Fits;
use crate::store::{Seat, Store, Token};
use crate::view::Numbered;
use std::marker::Brand;

impl<F: Fits> Store<F> {
    /// Writes the words of an entry, one after another.
    fn write_all(&self, token: &mut Token<F::Entry>, entry: &F::Entry, number: u32)
        requires token { token.old.table_id ≡ self.now.table.shared.table_id }
        requires due { token.old.me.0.grip.due ≡ F.means.writes entry.now number }
        requires there { (x : ℕ × ℕ) → Among token.old.me.0.grip.due x → x.0 < token.old.table_id.words }
        requires few { length token.old.me.0.grip.due < token.old.table_id.words }
        ensures token { token.new.table_id ≡ token.old.table_id }
        ensures view { token.new.me ≡ (all_published token.old.me.0 token.old.me.0.grip.due, token.old.me.1) }
        ensures none { token.new.me.0.grip.due ≡ [] }
    {
        let mut at = 0;
        while let Some((addr, word)) = F::write(entry, at, u64::from(number)) {
            self.table.shared.store::<Brand>(token, addr as usize, word);
            at += 1;
        }
    }

    /// Writes the words of the entry that was stamped last.
    pub fn publish(&self, seat: &mut Seat<F>)
        requires seat { IsSeatOf self.now seat.old }
        ensures seat { IsSeatOf self.now seat.new × (spare_of seat.new ≡ spare_of seat.old) }
        ensures view { view_of seat.new ≡ all_published (view_of seat.old) (view_of seat.old).grip.due }
        ensures none { (view_of seat.new).grip.due ≡ [] }
    {
        if let Some(Numbered { number, entry }) = seat.pending.take() {
            self.write_all(&mut seat.token, &entry, number);
            seat.journal.push(number, F::into_logged(entry));
        }
    }
}
