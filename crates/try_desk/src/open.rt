//! The instruction that opens a pair: its parts go into slots.
ghost use Rattle.std.specs.Prelude.{◌≡◌, ◌<◌, ℕ, length, IfOk, OnOk, OnErr};
ghost use Rattle.heap_words.specs.Trails.{Holds, KeepsLoads, Says};
ghost use Rattle.ro_unify.specs.Walks.{IsSeen, Tame};
ghost use Rattle.trial_laws.specs.Opening.{pair_at};
ghost use Rattle.try_desk.specs.Held.{held, held_term};
ghost use Rattle.try_desk.specs.Keeping.{KeepsArguments};
ghost use Rattle.try_desk.specs.Opened.{OpensPair};

use crate::slots::Slots;
use fcp_model::NoMemory;
use heap_words::{Cell, Trail, Words, decode};
use ro_unify::{Look, deref};

/// Where a value is a pair.
fn pair_in(look: Look) -> Option<u32>
    ensures { result ≡ pair_at look }
{
    match look {
        Look::Solid(word) => match decode(word) {
            Some(Cell::Cons(at)) => Some(at),
            _ => None,
        },
        _ => None,
    }
}

/// The words at two addresses.
fn both<W: Words>(
    trail: &mut Trail,
    words: &mut W,
    at: u32,
    to: u32,
) -> Result<(u64, u64), NoMemory>
    requires sound { W.sound words.old }
    requires holds { Holds W.had W.leads trail.old.kept trail.old.binds words.old }
    requires known { W.knows words.old at }
    requires also { W.knows words.old to }
    ensures between { W.later words.old words.new }
    ensures loaded { OnOk result (KeepsLoads W.sound W.had W.leads W.later W.gave trail.old.kept trail.old.binds words.old
        trail.new.kept trail.new.binds words.new) }
    ensures binds { trail.new.binds ≡ trail.old.binds }
    ensures reads { trail.new.reads.items ≡ trail.old.reads.items }
    ensures one { IfOk result (λ r. Says (W.own words.new) trail.new.kept (λ m. m at ≡ r.0)) }
    ensures two { IfOk result (λ r. Says (W.own words.new) trail.new.kept (λ m. m to ≡ r.1)) }
    ensures leads { IfOk result (λ r. W.leads words.new r.0 × W.leads words.new r.1) }
    ensures seen { OnOk result (IsSeen trail.new.kept (W.own words.new) at × IsSeen trail.new.kept (W.own words.new) to) }
{
    let one = trail.word(words, at)?;
    let two = trail.word(words, to)?;
    Ok((one, two))
}

impl Slots {
    /// A slot's value, if it is a pair, gives its two parts to slots; the answer is whether it is one. After `NoMemory` all slots
    /// hold what they held.
    pub fn open_pair<W: Words>(
        &mut self,
        trail: &mut Trail,
        words: &mut W,
        slot: u32,
        left: u32,
        right: u32,
    ) -> Result<bool, NoMemory>
        requires sound { W.sound words.old }
        requires holds { Holds W.had W.leads trail.old.kept trail.old.binds words.old }
        requires leads { W.leads words.old (held_term (held self.old) slot) }
        requires tame { Tame trail.old.binds trail.old.kept (W.own words.old) (W.addresses words.old) }
        requires left { left < length self.old.slots }
        requires right { right < length self.old.slots }
        ensures between { W.later words.old words.new }
        ensures loaded { OnOk result (KeepsLoads W.sound W.had W.leads W.later W.gave trail.old.kept trail.old.binds words.old
            trail.new.kept trail.new.binds words.new) }
        ensures binds { trail.new.binds ≡ trail.old.binds }
        ensures reads { trail.new.reads.items ≡ trail.old.reads.items }
        ensures opened { IfOk result (λ b. Says (W.own words.new) trail.new.kept
            (λ m. OpensPair trail.new.kept (W.own words.new) trail.old.binds m (held self.old) (held self.new) slot left right b)) }
        ensures tame { OnOk result (Tame trail.new.binds trail.new.kept (W.own words.new) (W.addresses words.new)) }
        ensures lead { OnOk result (((i : ℕ) → W.leads words.old (held_term (held self.old) i))
            → (i : ℕ) → W.leads words.new (held_term (held self.new) i)) }
        ensures stays { OnErr result (held self.new ≡ held self.old) }
        ensures keeps { KeepsArguments self.old self.new }
    {
        let look = deref(trail, words, self.term(slot))?;
        match pair_in(look) {
            Some(at) => {
                let parts = both(trail, words, at, at + 1)?;
                self.hold(left, parts.0, false);
                self.hold(right, parts.1, false);
                Ok(true)
            }
            None => Ok(false),
        }
    }
}
