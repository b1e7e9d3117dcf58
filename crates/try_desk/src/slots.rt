//! The slots of a try. Each has the stamp of the try in which a word was put into it, so a new try resets them all at once.
ghost use Rattle.std.specs.Prelude.{◌≡◌, ◌+◌, ◌<◌, ◌≤◌, ◌++◌, [], ◌∷◌, length, IfOk, OnOk, MatchResult, if◌then◌else◌};
ghost use Rattle.std.specs.Prelude.{unwrap_or, slice_get};
ghost use Rattle.try_desk.specs.Held.{held, held_terms, held_with, held_anew, NoneLater};
ghost use Rattle.try_desk.specs.Keeping.{KeepsArguments};

use fcp_model::NoMemory;
use std::alloc::Global;
use std::marker::Model;

/// The word of the empty list, which stands in slots that hold no term.
const NIL: u64 = 6;

/// What a slot holds: a word, the stamp of the try in which it was put, and whether it is an operation's.
#[derive(Clone, Copy)]
pub struct Slot {
    word: u64,
    stamp: u64,
    operation: bool,
}

/// The slots of a try, and the words of the goal's arguments, which stand in the first slots until others are put there. Contracts
/// see what each slot holds.
#[derive(Drop)]
pub struct Slots {
    slots: Vec<Slot>,
    stamp: u64,
    args: Vec<u64>,
}

impl Model for Slots {
    ghost use Rattle.try_desk.specs.Held.{Kept, NoneLater};

    ghost Value = { Kept };

    ghost view = { λ s. record { slots = s.slots.items; stamp = s.stamp; args = s.args.items } };

    ghost invariant = { λ s. NoneLater s.slots.items s.stamp };
}

/// The slot of a number.
fn slot_at(slots: &[Slot], at: u32) -> Option<Slot>
    ensures { result ≡ slice_get slots.now at }
{
    slots.get(at as usize).copied()
}

/// The argument of a number, or the empty list.
fn argument_at(args: &[u64], at: u32) -> u64
    ensures { result ≡ unwrap_or (slice_get args.now at) 6 }
{
    match args.get(at as usize).copied() {
        Some(word) => word,
        None => NIL,
    }
}

/// Puts a slot after the others. Where memory runs out, the slots stay as they were.
fn put_slot(slots: &mut Vec<Slot>, slot: Slot) -> Result<(), NoMemory>
    ensures { MatchResult result (λ _. slots.new.items ≡ slots.old.items ++ slot ∷ []) (λ _. slots.new.items ≡ slots.old.items) }
{
    match slots.push(slot) {
        Ok(()) => Ok(()),
        Err(_) => Err(NoMemory),
    }
}

/// Puts a word after the others of a list.
pub(crate) fn put_word(line: &mut Vec<u64>, word: u64) -> Result<(), NoMemory>
    ensures { OnOk result (line.new.items ≡ line.old.items ++ word ∷ []) }
{
    match line.push(word) {
        Ok(()) => Ok(()),
        Err(_) => Err(NoMemory),
    }
}

/// Gives all slots the first stamp.
fn reset(slots: &mut [Slot])
    ensures { NoneLater slots.new 0 }
{
    for i in 0..slots.len() {
        slots[i] = Slot {
            word: NIL,
            stamp: 0,
            operation: false,
        };
    }
}

impl Slots {
    /// So many slots, and no arguments: each slot holds the empty list.
    pub fn make(alloc: Global, count: u32) -> Result<Slots, NoMemory>
        ensures count { IfOk result (λ s. length s.slots ≡ count) }
        ensures held { IfOk result (λ s. held s ≡ held_anew []) }
        ensures args { IfOk result (λ s. s.args ≡ []) }
    {
        let mut slots = Vec::new(alloc);
        for i in 0..count {
            let slot = Slot {
                word: NIL,
                stamp: 0,
                operation: false,
            };
            put_slot(&mut slots, slot)?;
        }
        Ok(Slots {
            slots,
            stamp: 1,
            args: Vec::new(alloc),
        })
    }

    /// How many slots there are.
    fn count(&self) -> usize
        ensures { result ≡ length self.now.slots }
    {
        self.slots.as_slice().len()
    }

    /// Makes one slot more. It holds the argument of its number, or the empty list, as that number did before. Where memory runs out,
    /// the slots stay as they were.
    fn put_next(&mut self) -> Result<(), NoMemory>
        requires { length self.old.slots < 4294967296 }
        ensures count { MatchResult result (λ _. length self.new.slots ≡ length self.old.slots + 1)
            (λ _. length self.new.slots ≡ length self.old.slots) }
        ensures held { held self.new ≡ held self.old }
        ensures args { self.new.args ≡ self.old.args }
    {
        let at = self.count() as u32;
        let slot = Slot {
            word: argument_at(self.args.as_slice(), at),
            stamp: 0,
            operation: false,
        };
        put_slot(&mut self.slots, slot)?;
        Ok(())
    }

    /// Makes slots until there are `count`. Where there are as many or more, nothing changes: no slot is ever dropped. What the slots
    /// hold stays the same. So it does where memory runs out, and then some of the slots may have been made.
    pub fn reach(&mut self, count: u32) -> Result<(), NoMemory>
        ensures reached { OnOk result (count ≤ length self.new.slots) }
        ensures more { length self.old.slots ≤ length self.new.slots }
        ensures held { held self.new ≡ held self.old }
        ensures args { self.new.args ≡ self.old.args }
    {
        for i in self.count()..count as usize {
            self.put_next()?;
        }
        Ok(())
    }

    /// The word of a slot.
    pub fn content(&self, slot: u32) -> u64
        ensures { result ≡ (held self.now).words slot }
    {
        match slot_at(self.slots.as_slice(), slot) {
            Some(held) => if held.stamp == self.stamp {
                held.word
            } else {
                argument_at(self.args.as_slice(), slot)
            },
            None => argument_at(self.args.as_slice(), slot),
        }
    }

    /// Whether a slot holds an operation.
    fn has_operation(&self, slot: u32) -> bool
        ensures { result ≡ (held self.now).operators slot }
    {
        match slot_at(self.slots.as_slice(), slot) {
            Some(held) => if held.stamp == self.stamp {
                held.operation
            } else {
                false
            },
            None => false,
        }
    }

    /// The word of a slot as a term: that of the empty list, where it holds an operation.
    pub fn term(&self, slot: u32) -> u64
        ensures { result ≡ (if (held self.now).operators slot then 6 else (held self.now).words slot) }
    {
        if self.has_operation(slot) {
            NIL
        } else {
            self.content(slot)
        }
    }

    /// Puts the words of so many slots as terms after the other words of a list.
    pub fn terms(&self, line: &mut Vec<u64>, first: u32, count: u32) -> Result<(), NoMemory>
        requires { first + count < 4294967296 }
        ensures { OnOk result (line.new.items ≡ line.old.items ++ held_terms (held self.now) first count) }
    {
        for i in 0..count {
            put_word(line, self.term(first + i))?;
        }
        Ok(())
    }

    /// Puts a word into a slot.
    pub fn hold(&mut self, slot: u32, word: u64, operation: bool)
        requires { slot < length self.old.slots }
        ensures held { held self.new ≡ held_with (held self.old) slot word operation }
        ensures keeps { KeepsArguments self.old self.new }
    {
        let stamp = self.stamp;
        self.slots[slot as usize] = Slot {
            word,
            stamp,
            operation,
        };
    }

    /// Forgets the arguments of the last goal.
    pub fn forget(&mut self)
        ensures args { self.new.args ≡ [] }
        ensures count { length self.new.slots ≡ length self.old.slots }
    {
        self.args.clear();
    }

    /// Takes the next argument of a goal. Where memory runs out, there is none more.
    pub fn take(&mut self, word: u64) -> Result<(), NoMemory>
        ensures args { MatchResult result (λ _. self.new.args ≡ self.old.args ++ word ∷ []) (λ _. self.new.args ≡ self.old.args) }
        ensures count { length self.new.slots ≡ length self.old.slots }
    {
        match self.args.push(word) {
            Ok(()) => Ok(()),
            Err(_) => Err(NoMemory),
        }
    }

    /// Resets all slots for a try: they hold the arguments.
    pub fn renew(&mut self)
        ensures held { held self.new ≡ held_anew self.old.args }
        ensures keeps { KeepsArguments self.old self.new }
    {
        self.begin_stamps();
        self.stamp += 1;
    }

    /// Begins with the stamps anew, where the last one was reached.
    fn begin_stamps(&mut self)
        ensures stamp { self.new.stamp < u64.MAX }
        ensures keeps { KeepsArguments self.old self.new }
    {
        if self.stamp == u64::MAX {
            reset(self.slots.as_mut_slice());
            self.stamp = 0;
        }
    }
}
