//! A second look at what was read, while its pages are held.
ghost use Rattle.std.specs.Prelude.{◌≡◌, ℕ, ◌/◌, true, false};
ghost use Rattle.heap_words.specs.Cells.{is_final_word};
ghost use Rattle.word_states.specs.Words.{Among};
ghost use Rattle.commit_engine.specs.Making.{LookSays, LooksSay};

use crate::change::Change;
use crate::hall::Hall;
use heap_words::is_final;

/// Looks again at a word, where it may have changed.
fn look<H: Hall>(hall: &mut H, addr: u32, word: u64) -> Option<Change>
    requires sound { H.sound hall.old }
    requires known { H.knows hall.old addr }
    requires held { is_final_word word ≡ false → H.holds hall.old (addr / 1024) ≡ true }
    ensures later { H.later hall.old hall.new }
    ensures says { LookSays H.stands H.gave hall.old hall.new addr word result }
{
    if is_final(word) {
        return None;
    }
    let found = hall.load(addr);
    if found == word {
        return None;
    }
    Some(Change {
        addr,
        kept: word,
        found,
    })
}

/// Looks again at what was read and is not final. Answers the first word that has changed.
pub(crate) fn look_again<H: Hall>(hall: &mut H, reads: &[(u32, u64)]) -> Option<Change>
    requires sound { H.sound hall.old }
    requires known { (a x : ℕ) → Among reads.now (a, x) → H.knows hall.old a }
    requires held { (a x : ℕ) → Among reads.now (a, x) → is_final_word x ≡ false → H.holds hall.old (a / 1024) ≡ true }
    ensures later { H.later hall.old hall.new }
    ensures says { LooksSay H.stands H.gave hall.old hall.new reads.now result }
{
    for at in 0..reads.len() {
        let read = reads[at];
        match look(hall, read.0, read.1) {
            Some(change) => return Some(change),
            None => {}
        }
    }
    None
}
