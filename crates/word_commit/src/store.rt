ghost use Rattle.std.specs.Prelude.{◌≡◌, ◌+◌, ◌*◌, ◌/◌, ◌<◌, ◌≤◌, ◌^◌, ℕ, [], ◌∷◌, ◌++◌, map, length, vec_len, vec_capacity, slice_index};
ghost use Rattle.std.specs.Prelude.{IfOk};
ghost use Rattle.word_commit.specs.Meanings.{Among};
ghost use Rattle.word_commit.specs.Kept.{words_of, numbers_of};
ghost use Rattle.word_commit.specs.Views.{first_view};
ghost use Rattle.word_commit.specs.Openings.{MayOpen};
ghost use Rattle.word_commit.specs.Seats.{Has, pending_of, due_of, kept_of};

use crate::fits::Fits;
use crate::journal::Journal;
use crate::quota::Quota;
use crate::view::{Given, Law, Nothing, Numbered, View};
use atomic_table::Table;
use fcp_model::NoMemory;
use std::alloc::Global;
use std::snapshot::Snapshot;

pub(crate) type Token<E> = atomic_table::Seat<Nothing, View<E>>;

pub(crate) const PAGE: usize = 1024;

/// Words in pages of 1,024 that several seats share. Its table has the cells by their addresses, then a word for each page,
/// which says whether a seat holds it, and then the clock, which counts the entries.
#[derive(Drop)]
pub struct Store<F: Fits> {
    pub(crate) table: Table<Nothing, View<F::Entry>, Given, Law<F>, Global>,
    pub(crate) pages: u32,
    ghost size: { table.shared.table_id.words ≡ 1024 * pages + pages + 1 },
    ghost slots: { table.shared.table_id.slots ≡ 0 },
    ghost key: { table.shared.key.pages ≡ pages },
    ghost small: { pages ≤ 3906250 },
    ghost few: { table.shared.key.quota.moves + table.shared.key.extra < 2 ^ 32 },
    ghost limits: { (table.shared.key.quota.commits < 2 ^ 32) × (table.shared.key.quota.cells < 2 ^ 32) },
}

/// What steps on a store: a view of it, and the entries that were made with it.
#[derive(Drop)]
pub struct Seat<F: Fits> {
    pub(crate) token: Token<F::Entry>,
    pub(crate) journal: Journal<F::Logged>,
    // the entry that was stamped last, until its writes are published
    pub(crate) pending: Option<Numbered<F::Entry>>,
    pub(crate) funds: Quota,
    // for how many entries more there is room
    pub(crate) spare: usize,
    ghost bare: { token.me.1 ≡ [] },
    ghost alive: { 0 < token.me.0.purse.rights },
    ghost rich: { Has token.me.0.purse funds },
    ghost due: { token.me.0.grip.due ≡ due_of F.means pending },
    ghost there: { (x : ℕ × ℕ) → Among token.me.0.grip.due x → x.0 < token.table_id.words },
    ghost few: { length token.me.0.grip.due < token.table_id.words },
    ghost kept: { kept_of F.logged token.me.0.entries ≡ journal.entries.items ++ kept_of F.logged (pending_of pending) },
    ghost numbers: { numbers_of token.me.0.entries ≡ journal.numbers.items ++ numbers_of (pending_of pending) },
    ghost room: { (vec_len journal.entries + length (pending_of pending) + spare ≤ vec_capacity journal.entries)
        × (vec_len journal.entries + length (pending_of pending) + spare ≤ vec_capacity journal.numbers) },
}

/// The words, and after them a zero for each page and one for the clock.
fn lay_out(words: Vec<u64>, pages: usize) -> Result<Vec<u64>, NoMemory>
    requires { (vec_len words ≡ 1024 * pages) × (pages ≤ 3906250) }
    ensures size { IfOk result (λ v. vec_len v ≡ 1024 * pages + pages + 1) }
    ensures cells { IfOk result (λ v. (a : ℕ) → a < 1024 * pages → slice_index v.items a ≡ slice_index words.items a) }
    ensures zeros { IfOk result (λ v. (i : ℕ) → 1024 * pages ≤ i → slice_index v.items i ≡ 0) }
{
    let mut all = words;
    let size = all.len() + pages + 1;
    if all.reserve_exact(pages + 1).is_err() || all.resize(size, 0).is_err() {
        return Err(NoMemory);
    }
    Ok(all)
}

impl<F: Fits> Store<F> {
    ghost use Rattle.word_commit.specs.Shows.{IsSeatOf, view_of, spare_of, given_of};

    /// A store of these words, and its first seat, which has the quota and room for all its entries and the extra ones.
    pub fn make(
        alloc: Global,
        words: Vec<u64>,
        quota: Quota,
        extra: u32,
    ) -> Result<(Store<F>, Seat<F>), NoMemory>
        requires words { MayOpen F.means.words words.items }
        requires few { quota.moves + extra < 2 ^ 32 }
        ensures given { IfOk result (λ r. (words_of (given_of r.0) ≡ words.items) × ((given_of r.0).pages ≡ vec_len words / 1024)
            × ((given_of r.0).quota ≡ quota) × ((given_of r.0).extra ≡ extra)) }
        ensures seat { IfOk result (λ r. IsSeatOf r.0 r.1) }
        ensures view { IfOk result (λ r. view_of r.1 ≡ first_view (given_of r.0)) }
        ensures spare { IfOk result (λ r. spare_of r.1 ≡ quota.moves + extra) }
    {
        let pages = words.len() / PAGE;
        let spare = quota.moves as usize + extra as usize;
        let given = Given {
            pages: pages as u64,
            quota,
            extra,
            words: Snapshot::of(&words),
        };
        let Ok(journal) = Journal::with_room(alloc, spare) else {
            return Err(NoMemory);
        };
        let laid = lay_out(words, pages)?;
        let Ok((table, token)) = Table::of_words(alloc, laid.as_slice(), &given) else {
            return Err(NoMemory);
        };
        let seat = Seat {
            token,
            journal,
            pending: None,
            funds: quota,
            spare,
        };
        Ok((
            Store {
                table,
                pages: pages as u32,
            },
            seat,
        ))
    }

    /// The number of pages.
    pub fn pages(&self) -> u32
        ensures pages { result ≡ (given_of self.now).pages }
        ensures small { result ≤ 3906250 }
    {
        self.pages
    }

    /// What the seat may still spend, but for extra entries.
    pub fn quota(&self, seat: &Seat<F>) -> Quota
        ensures { Has (view_of seat.now).purse result }
    {
        seat.funds
    }
}
