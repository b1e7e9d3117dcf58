//! The instruction that unifies two slots.
ghost use Rattle.std.specs.Prelude.{◌≡◌, ◌∷◌, [], IfOk, OnOk};
ghost use Rattle.heap_words.specs.Trails.{Holds, KeepsLoads, Says};
ghost use Rattle.ro_unify.specs.Unify.{Unifies, ending};
ghost use Rattle.ro_unify.specs.Walks.{Tame};
ghost use Rattle.try_desk.specs.Held.{held, held_term};

use crate::slots::Slots;
use fcp_model::NoMemory;
use heap_words::{Trail, Words};
use ro_unify::{Unified, WorkLists, unify};

impl Slots {
    /// Unifies two slots' terms. After `NoMemory` the trail is only good for `clear`.
    pub fn unify<W: Words>(
        &self,
        lists: &mut WorkLists,
        trail: &mut Trail,
        words: &mut W,
        left: u32,
        right: u32,
    ) -> Result<Unified, NoMemory>
        requires sound { W.sound words.old }
        requires holds { Holds W.had W.leads trail.old.kept trail.old.binds words.old }
        requires leads { (W.leads words.old (held_term (held self.now) left)) × (W.leads words.old (held_term (held self.now) right)) }
        requires tame { Tame trail.old.binds trail.old.kept (W.own words.old) (W.addresses words.old) }
        ensures between { W.later words.old words.new }
        ensures loaded { OnOk result (KeepsLoads W.sound W.had W.leads W.later W.gave trail.old.kept trail.old.binds words.old
            trail.new.kept trail.new.binds words.new) }
        ensures unifies { IfOk result (λ d. Says (W.own words.new) trail.new.kept
            (λ m. Unifies m trail.old.binds trail.old.reads.items
            ((held_term (held self.now) left, held_term (held self.now) right) ∷ []) (ending d trail.new.binds trail.new.reads.items))) }
        ensures tame { OnOk result (Tame trail.new.binds trail.new.kept (W.own words.new) (W.addresses words.new)) }
    {
        let pairs = [(self.term(left), self.term(right))];
        unify(lists, trail, words, &pairs)
    }
}
