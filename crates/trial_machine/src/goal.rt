//! The words of a process: the procedure that it calls, and its arguments.
ghost use Rattle.std.specs.Prelude.{◌≡◌, [], length, Some, OnOk, IfOk};
ghost use Rattle.heap_words.specs.Trails.{word_at};
ghost use Rattle.safe_tries.specs.Stored.{IsStored};
ghost use Rattle.trial_machine.specs.Goals.{NumberRead, HasStatus, CallRead, HasArguments, IsIdle, ArgumentsRead};
ghost use Rattle.trial_machine.specs.Stores.{Loads};

use crate::machine::Machine;
use fcp_model::NoMemory;
use heap_words::{Cell, Trail, Words, decode};
use try_desk::is_term;

/// Loads and keeps the word at a known address, where nothing is bound.
pub fn load_word<W: Words>(trail: &mut Trail, words: &mut W, addr: u32) -> Result<u64, NoMemory>
    requires stored { IsStored W.addresses W.sound W.had W.shown W.later trail.old.kept words.old }
    requires free { trail.old.binds ≡ [] }
    requires known { W.knows words.old addr }
    ensures between { W.later words.old words.new }
    ensures loaded { OnOk result (Loads W.addresses W.sound W.had W.shown W.later W.gave trail.old.kept words.old trail.new.kept
        words.new) }
    ensures word { IfOk result (λ x. word_at trail.new.kept addr ≡ Some x) }
    ensures binds { trail.new.binds ≡ trail.old.binds }
    ensures reads { trail.new.reads.items ≡ trail.old.reads.items }
{
    let word = trail.word(words, addr)?;
    Ok(word)
}

/// The number whose word stands at a known address, where nothing is bound; `None` where another word stands there.
pub fn load_number<W: Words>(
    trail: &mut Trail,
    words: &mut W,
    addr: u32,
) -> Result<Option<u32>, NoMemory>
    requires stored { IsStored W.addresses W.sound W.had W.shown W.later trail.old.kept words.old }
    requires free { trail.old.binds ≡ [] }
    requires known { W.knows words.old addr }
    ensures between { W.later words.old words.new }
    ensures loaded { OnOk result (Loads W.addresses W.sound W.had W.shown W.later W.gave trail.old.kept words.old trail.new.kept
        words.new) }
    ensures number { IfOk result (λ n. NumberRead trail.new.kept addr n) }
    ensures binds { trail.new.binds ≡ trail.old.binds }
    ensures reads { trail.new.reads.items ≡ trail.old.reads.items }
{
    let word = load_word(trail, words, addr)?;
    match decode(word) {
        Some(Cell::Raw(number)) => Ok(Some(number)),
        _ => Ok(None),
    }
}

impl Machine {
    /// Forgets the last trial: nothing is at hand or kept.
    fn clear(&mut self)
        ensures idle { IsIdle self.new }
        ensures kept { self.new.trail.kept ≡ [] }
        ensures args { self.new.desk.slots.args ≡ [] }
        ensures count { length self.new.desk.slots.slots ≡ length self.old.desk.slots.slots }
    {
        self.trail.clear();
        self.waits.clear();
        self.desk.slots.forget();
        self.desk.leave(true);
    }

    /// A trial begins: nothing is at hand, and the process at an address is asked which procedure it calls, and with how many
    /// arguments; `None` where it can have no goal.
    pub(crate) fn load_call<W: Words>(
        &mut self,
        words: &mut W,
        process: u32,
    ) -> Result<Option<(u32, u32)>, NoMemory>
        requires stored { IsStored W.addresses W.sound W.had W.shown W.later [] words.old }
        requires process { HasStatus W.had words.old process }
        ensures between { W.later words.old words.new }
        ensures loaded { OnOk result (Loads W.addresses W.sound W.had W.shown W.later W.gave [] words.old self.new.trail.kept words.new) }
        ensures call { IfOk result (λ c. CallRead self.new.trail.kept process c) }
        ensures idle { IsIdle self.new }
        ensures args { self.new.desk.slots.args ≡ [] }
        ensures count { length self.new.desk.slots.slots ≡ length self.old.desk.slots.slots }
    {
        self.clear();
        let Some(procedure) = load_number(&mut self.trail, words, process + 2)? else {
            return Ok(None);
        };
        let Some(count) = load_number(&mut self.trail, words, process + 3)? else {
            return Ok(None);
        };
        Ok(Some((procedure, count)))
    }

    /// Takes so many arguments of the process into the slots. The answer is `false` where one of their words can be no term's or
    /// operation's, so that the process can have no goal.
    pub(crate) fn load_arguments<W: Words>(
        &mut self,
        words: &mut W,
        process: u32,
        count: u32,
    ) -> Result<bool, NoMemory>
        requires stored { IsStored W.addresses W.sound W.had W.shown W.later self.old.trail.kept words.old }
        requires process { HasStatus W.had words.old process }
        requires counted { HasArguments self.old.trail.kept process count }
        requires idle { IsIdle self.old }
        requires none { self.old.desk.slots.args ≡ [] }
        ensures between { W.later words.old words.new }
        ensures loaded { OnOk result (Loads W.addresses W.sound W.had W.shown W.later W.gave self.old.trail.kept words.old
            self.new.trail.kept words.new) }
        ensures arguments { IfOk result (λ there. ArgumentsRead self.new process count there) }
        ensures count { length self.new.desk.slots.slots ≡ length self.old.desk.slots.slots }
    {
        for i in 0..count {
            let word = load_word(&mut self.trail, words, process + 4 + i)?;
            if !is_term(word) {
                return Ok(false);
            }
            self.desk.slots.take(word)?;
        }
        self.desk.leave(true);
        Ok(true)
    }
}
