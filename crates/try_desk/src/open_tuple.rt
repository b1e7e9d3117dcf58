//! The instruction that opens a tuple: its parts go into slots.
ghost use Rattle.std.specs.Prelude.{◌≡◌, ◌+◌, ◌<◌, ◌≤◌, ℕ, length, IfOk, OnOk};
ghost use Rattle.heap_words.specs.Cells.{decoded};
ghost use Rattle.heap_words.specs.Trails.{Holds, KeepsLoads, Says};
ghost use Rattle.ro_unify.specs.Occurs.{words_after};
ghost use Rattle.ro_unify.specs.Walks.{IsSeen, Tame};
ghost use Rattle.trial_laws.specs.Opening.{is_count};
ghost use Rattle.try_desk.specs.Held.{held, held_term};
ghost use Rattle.try_desk.specs.Keeping.{KeepsArguments};
ghost use Rattle.try_desk.specs.Opened.{any_tuple, held_all, OpensTuple};

use crate::slots::Slots;
use fcp_model::NoMemory;
use heap_words::{Cell, Trail, Words, decode};
use ro_unify::{Look, deref};

/// Where a value is a tuple, of any number of parts.
fn any_tuple(look: Look) -> Option<u32>
    ensures { result ≡ any_tuple look }
{
    match look {
        Look::Solid(word) => match decode(word) {
            Some(Cell::Tuple(at)) => Some(at),
            _ => None,
        },
        _ => None,
    }
}

/// Whether a word is the number of so many parts.
fn is_count(word: u64, parts: u32) -> bool
    ensures { result ≡ is_count parts (decoded word) }
{
    match decode(word) {
        Some(Cell::Raw(count)) => count == parts,
        _ => false,
    }
}

impl Slots {
    /// The slots from `first` on take the words after an address. After `NoMemory` the first of them may have taken theirs.
    fn take_parts<W: Words>(
        &mut self,
        trail: &mut Trail,
        words: &mut W,
        at: u32,
        first: u32,
        parts: u32,
    ) -> Result<(), NoMemory>
        requires sound { W.sound words.old }
        requires holds { Holds W.had W.leads trail.old.kept trail.old.binds words.old }
        requires known { (b : ℕ) → at < b → b ≤ at + parts → W.knows words.old b }
        requires range { first + parts < 4294967296 }
        requires slots { first + parts ≤ length self.old.slots }
        ensures between { W.later words.old words.new }
        ensures loaded { OnOk result (KeepsLoads W.sound W.had W.leads W.later W.gave trail.old.kept trail.old.binds words.old
            trail.new.kept trail.new.binds words.new) }
        ensures binds { trail.new.binds ≡ trail.old.binds }
        ensures reads { trail.new.reads.items ≡ trail.old.reads.items }
        ensures seen { OnOk result ((b : ℕ) → at < b → b ≤ at + parts → IsSeen trail.new.kept (W.own words.new) b) }
        ensures takes { OnOk result (Says (W.own words.new) trail.new.kept
            (λ m. held self.new ≡ held_all (held self.old) first (words_after m at parts))) }
        ensures lead { OnOk result (((i : ℕ) → W.leads words.old (held_term (held self.old) i))
            → (i : ℕ) → W.leads words.new (held_term (held self.new) i)) }
        ensures keeps { KeepsArguments self.old self.new }
    {
        for i in 0..parts {
            let word = trail.word(words, at + (i + 1))?;
            self.hold(first + i, word, false);
        }
        Ok(())
    }

    /// A slot's value, if it is a tuple of so many parts, gives them to the slots from `first` on; the answer is whether it is one.
    /// After `NoMemory` the first of these slots may hold a part each, and all others hold what they held.
    pub fn open_tuple<W: Words>(
        &mut self,
        trail: &mut Trail,
        words: &mut W,
        slot: u32,
        first: u32,
        parts: u32,
    ) -> Result<bool, NoMemory>
        requires sound { W.sound words.old }
        requires holds { Holds W.had W.leads trail.old.kept trail.old.binds words.old }
        requires leads { W.leads words.old (held_term (held self.old) slot) }
        requires tame { Tame trail.old.binds trail.old.kept (W.own words.old) (W.addresses words.old) }
        requires few { parts < 66 }
        requires range { first + parts < 4294967296 }
        requires slots { first + parts ≤ length self.old.slots }
        ensures between { W.later words.old words.new }
        ensures loaded { OnOk result (KeepsLoads W.sound W.had W.leads W.later W.gave trail.old.kept trail.old.binds words.old
            trail.new.kept trail.new.binds words.new) }
        ensures binds { trail.new.binds ≡ trail.old.binds }
        ensures reads { trail.new.reads.items ≡ trail.old.reads.items }
        ensures opened { IfOk result (λ b. Says (W.own words.new) trail.new.kept
            (λ m. OpensTuple trail.new.kept (W.own words.new) trail.old.binds m (held self.old) (held self.new) slot first parts b)) }
        ensures tame { OnOk result (Tame trail.new.binds trail.new.kept (W.own words.new) (W.addresses words.new)) }
        ensures lead { OnOk result (((i : ℕ) → W.leads words.old (held_term (held self.old) i))
            → (i : ℕ) → W.leads words.new (held_term (held self.new) i)) }
        ensures keeps { KeepsArguments self.old self.new }
    {
        let look = deref(trail, words, self.term(slot))?;
        match any_tuple(look) {
            Some(at) => {
                let count = trail.word(words, at)?;
                if is_count(count, parts) {
                    self.take_parts(trail, words, at, first, parts)?;
                    Ok(true)
                } else {
                    Ok(false)
                }
            }
            None => Ok(false),
        }
    }
}
