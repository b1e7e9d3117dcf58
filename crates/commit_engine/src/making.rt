//! An entry is made: its pages are taken, what it read is looked at again, and it is stamped and published.
ghost use Rattle.std.specs.Prelude.{◌≡◌, ◌-◌, ◌/◌, ◌<◌, ℕ, true, false};
ghost use Rattle.word_states.specs.Words.{Among, IsIn};
ghost use Rattle.commit_engine.specs.Halls.{IsPaid, IsSpent};
ghost use Rattle.commit_engine.specs.Holding.{Keeps, IsFree, IsQuiet};
ghost use Rattle.commit_engine.specs.Making.{IsEntry, AreThere, IsAbove, MakeSays, is_made};

use crate::change::Change;
use crate::hall::Hall;
use crate::looking::look_again;
use crate::pages::{give_pages, take_pages};
use word_moves::WordMove;

/// How the making of an entry ends.
#[derive(Clone, Copy)]
pub(crate) enum Making {
    Made { number: u64 },
    Busy { page: u32 },
    Changed(Change),
}

/// Primes new places as unbound ones: whatever the entry writes there may follow.
fn prime_all<H: Hall>(hall: &mut H, places: &[u32])
    requires sound { H.sound hall.old }
    requires idle { H.due hall.old ≡ false }
    requires held { (a : ℕ) → IsIn a places.now → H.holds hall.old (a / 1024) ≡ true }
    requires above { (a : ℕ) → IsIn a places.now → IsAbove (H.stands hall.old) a }
    ensures sound { H.sound hall.new }
    ensures quiet { IsQuiet H.page_count H.due H.purse H.spare H.silent hall.old hall.new }
    ensures holds { (p : ℕ) → H.holds hall.new p ≡ H.holds hall.old p }
    ensures stands { (a x : ℕ) → H.stands hall.old a x → H.stands hall.new a x }
    ensures takes { H.takes hall.new ≡ H.takes hall.old }
    ensures primed { (a : ℕ) → IsIn a places.now → H.primed hall.new a 0 }
{
    for at in 0..places.len() {
        hall.prime(places[at], 0);
    }
}

/// Stamps an entry whose pages are held and whose reads stand, publishes it, and gives the pages back. Answers its number.
fn enter<H: Hall>(hall: &mut H, entry: WordMove, pages: &[u32], places: &[u32]) -> u64
    requires sound { H.sound hall.old }
    requires idle { H.due hall.old ≡ false }
    requires room { 0 < H.spare hall.old }
    requires paid { IsPaid (H.purse hall.old) entry }
    requires keeps { Keeps (H.holds hall.old) pages.now 0 (H.page_count hall.old) }
    requires entry { IsEntry entry pages.now places.now }
    requires there { AreThere (H.page_count hall.old) (H.stands hall.old) (H.shown hall.old) entry.reads.items }
    ensures sound { H.sound hall.new }
    ensures idle { H.due hall.new ≡ false }
    ensures free { IsFree (H.holds hall.new) }
    ensures added { H.added hall.old hall.new entry result }
    ensures takes { H.takes hall.new ≡ H.takes hall.old }
    ensures purse { IsSpent (H.purse hall.old) entry (H.purse hall.new) }
    ensures rest { (H.page_count hall.new ≡ H.page_count hall.old) × (H.spare hall.new ≡ H.spare hall.old - 1) }
{
    prime_all(hall, places);
    let number = hall.stamp(entry);
    hall.publish();
    let count = hall.pages();
    give_pages(hall, pages, count);
    number
}

/// Makes an entry, where no other worker holds one of its pages, and nothing that it read has changed.
pub(crate) fn make<H: Hall>(hall: &mut H, entry: WordMove, pages: &[u32], places: &[u32]) -> Making
    requires sound { H.sound hall.old }
    requires idle { H.due hall.old ≡ false }
    requires free { IsFree (H.holds hall.old) }
    requires room { 0 < H.spare hall.old }
    requires paid { IsPaid (H.purse hall.old) entry }
    requires entry { IsEntry entry pages.now places.now }
    requires had { (a x : ℕ) → Among entry.reads.items (a, x) → H.had hall.old a x }
    requires same { H.alone hall.old → (w : H) (a x y : ℕ) → Among entry.reads.items (a, x) → H.found hall.old w a y → x ≡ y }
    ensures sound { H.sound hall.new }
    ensures idle { H.due hall.new ≡ false }
    ensures free { IsFree (H.holds hall.new) }
    ensures says { MakeSays H.page_count H.due H.purse H.spare H.takes H.silent H.found H.added entry pages.now hall.old hall.new result }
    ensures alone { H.alone hall.old → is_made result ≡ true }
{
    match take_pages(hall, pages) {
        Some(page) => Making::Busy { page },
        None => match look_again(hall, entry.reads.as_slice()) {
            Some(change) => {
                let count = hall.pages();
                give_pages(hall, pages, count);
                Making::Changed(change)
            }
            None => Making::Made {
                number: enter(hall, entry, pages, places),
            },
        },
    }
}
