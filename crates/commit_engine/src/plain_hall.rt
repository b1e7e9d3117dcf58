//! A plain hall: words that nobody else writes, with the log.
ghost use Rattle.std.specs.Prelude.{◌≡◌, ℕ, ◌+◌, ◌-◌, ◌*◌, ◌/◌, ◌<◌, ◌≤◌, true, false, None, Some, length, IfOk, []};
ghost use Rattle.word_states.specs.Words.{Among};
ghost use Rattle.word_states.specs.Writing.{applied};
ghost use Rattle.heap_words.specs.Heaps.{IsHeap, RefersInside, is_inside, inside_at, final_at};
ghost use Rattle.page_layout.specs.Writing.{written};
ghost use Rattle.commit_engine.specs.Halls.{commits_of, moves_of};
ghost use Rattle.commit_engine.specs.PlainHalls.{IsPlain, IsSame, holds_of, IsSilent, IsFound, IsAdded};
ghost use Rattle.commit_engine.specs.PlainLaws.{plain_words, plain_hall};

use crate::hall::Hall;
use fcp_model::{Entry, NoMemory};
use heap_words::Words;
use page_layout::Written;
use std::alloc::Global;
use word_commit::{Quota, Taken};
use word_moves::WordMove;

/// Words by their addresses, the locks of their pages, which nobody else takes, and the entries so far. What an entry writes is written
/// when it is stamped.
#[derive(Drop)]
pub struct PlainHall {
    words: Vec<u64>,
    log: Vec<Entry>,
    held: Vec<bool>,
    due: bool,
    quota: Quota,
    spare: u32,
}

/// Makes the writes of the entry of this number, one after another.
fn write_all(words: &mut Vec<u64>, writes: &[Written], number: u64)
    requires ranges { (a x : ℕ) → Among (written number writes.now) (a, x) → a < length words.old.items }
    requires number { number < 134217729 }
    ensures { words.new.items ≡ applied words.old.items (written number writes.now) }
{
    for at in 0..writes.len() {
        let write = writes[at];
        words[write.addr as usize] = write.word + write.step * number;
    }
}

/// What an entry leaves of a quota.
fn left_of(quota: Quota, entry: Entry, cells: u32) -> Quota
    requires commits { commits_of entry ≤ quota.commits }
    requires moves { moves_of entry ≤ quota.moves }
    requires cells { cells ≤ quota.cells }
    ensures commits { result.commits ≡ quota.commits - commits_of entry }
    ensures moves { result.moves ≡ quota.moves - moves_of entry }
    ensures cells { result.cells ≡ quota.cells - cells }
{
    let (commits, moves) = match entry {
        Entry::Commit { .. } => (1, 1),
        Entry::Hang { .. } => (0, 1),
        Entry::Fail { .. } => (0, 1),
        _ => (0, 0),
    };
    Quota {
        commits: quota.commits - commits,
        moves: quota.moves - moves,
        cells: quota.cells - cells,
    }
}

impl Words for PlainHall {
    ghost addresses = { λ h. length h.words.items };

    ghost sound = { IsPlain };

    ghost knows = { λ h a. is_inside h.words.items a ≡ true };

    ghost had = { λ h a x. inside_at h.words.items a ≡ Some x };

    ghost leads = { λ h x. RefersInside h.words.items x };

    ghost own = { λ h a. None };

    ghost shown = { λ h. final_at h.words.items };

    ghost later = { IsSame };

    ghost gave = { λ g h a x. IsSame g h × (inside_at h.words.items a ≡ Some x) };

    ghost once = { λ g h a x. IsSame g h × (inside_at h.words.items a ≡ Some x) };

    ghost laws = { plain_words };

    fn load(&mut self, addr: u32) -> u64 {
        self.words[addr as usize]
    }
}

impl Hall for PlainHall {
    ghost page_count = { λ h. length h.words.items / 1024 };

    ghost holds = { holds_of };

    ghost due = { λ h. h.due };

    ghost purse = { λ h. h.quota };

    ghost spare = { λ h. h.spare };

    ghost takes = { λ h. [] };

    ghost primed = { λ h a x. Unit {0} };

    ghost alone = { λ h. Unit {0} };

    ghost stands = { λ h a x. inside_at h.words.items a ≡ Some x };

    ghost silent = { IsSilent };

    ghost found = { IsFound };

    ghost added = { IsAdded };

    ghost hall_laws = { plain_hall };

    fn take(&mut self, page: u32) -> Taken {
        self.held[page as usize] = true;
        Taken::Got
    }

    fn prime(&mut self, _addr: u32, _word: u64) {}

    fn stamp(&mut self, entry: WordMove) -> u64 {
        let number = self.log.len() as u64 + 1;
        write_all(&mut self.words, &entry.writes, number);
        let _ = self.log.push(entry.entry);
        self.quota = left_of(self.quota, entry.entry, entry.cells);
        self.spare -= 1;
        self.due = true;
        number
    }

    fn publish(&mut self) {
        self.due = false;
    }

    fn give(&mut self, page: u32) {
        self.held[page as usize] = false;
    }

    fn quota(&self) -> Quota {
        self.quota
    }

    fn pages(&self) -> u32 {
        (self.words.len() / 1024) as u32
    }
}

impl PlainHall {
    /// A hall over these words with this quota, and with room for so many entries in its log, which is all the memory that it takes.
    pub fn of_words(
        alloc: Global,
        words: Vec<u64>,
        quota: Quota,
        room: u32,
    ) -> Result<PlainHall, NoMemory>
        requires heap { IsHeap words.items }
        requires few { room < 134217728 }
        ensures plain { IfOk result IsPlain }
        ensures words { IfOk result (λ h. h.words.items ≡ words.items) }
        ensures log { IfOk result (λ h. h.log.items ≡ []) }
        ensures idle { IfOk result (λ h. h.due ≡ false) }
        ensures quota { IfOk result (λ h. h.quota ≡ quota) }
        ensures spare { IfOk result (λ h. h.spare ≡ room) }
        ensures free { IfOk result (λ h. (p : ℕ) → holds_of h p ≡ false) }
    {
        let Ok(log) = Vec::with_capacity(alloc, room as usize) else {
            return Err(NoMemory);
        };
        let Ok(held) = Vec::from_elem(alloc, false, words.len() / 1024) else {
            return Err(NoMemory);
        };
        Ok(PlainHall {
            words,
            log,
            held,
            due: false,
            quota,
            spare: room,
        })
    }

    /// All its words, by their addresses from 0 on.
    pub fn words(&self) -> &[u64]
        ensures { result.now ≡ self.now.words.items }
    {
        self.words.as_slice()
    }

    /// The entries in order of number. It takes no memory.
    pub fn into_log(self) -> Vec<Entry>
        ensures { result.items ≡ self.log.items }
    {
        let PlainHall {
            words: _,
            log,
            held: _,
            due: _,
            quota: _,
            spare: _,
        } = self;
        log
    }
}
