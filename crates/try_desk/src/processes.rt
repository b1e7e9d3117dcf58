//! How many of the pieces are processes.
ghost use Rattle.std.specs.Prelude.{◌≡◌, ◌+◌, ◌<◌, ◌≤◌, length, take, drop};
ghost use Rattle.word_states.specs.Pieces.{is_process, process_words};
ghost use Rattle.try_desk.specs.Cuts.{cut, total};

use crate::child::READY;
use crate::pieces::Pieces;

/// Whether the piece of so many words, of which the first is at a position, is a process.
fn is_ready(words: &[u64], at: usize, size: u32) -> bool
    requires { at + size ≤ length words.now }
    ensures { result ≡ is_process (take size (drop at words.now)) }
{
    size > 0 && words[at] == READY
}

/// How many processes are among the pieces into which words are cut by sizes.
fn processes_among(words: &[u64], sizes: &[u32]) -> u32
    requires whole { total sizes.now ≡ length words.now }
    requires words { length words.now ≤ 268435455 }
    requires sizes { length sizes.now < 268435455 }
    ensures { result ≡ length (process_words 4000000000 (cut words.now sizes.now)) }
{
    let mut count = 0;
    let mut at = 0;
    for size in sizes {
        if is_ready(words, at, *size) {
            count += 1;
        }
        at += *size as usize;
    }
    count
}

impl Pieces {
    /// How many of the pieces are processes.
    pub fn processes(&self) -> u32
        ensures { result ≡ length (process_words 4000000000 self.now) }
    {
        processes_among(self.words(), self.sizes())
    }
}
