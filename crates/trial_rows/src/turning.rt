//! Words of which another writer binds one place.
ghost use Rattle.std.specs.Prelude.{◌≡◌, ◌≤◌, true, None, IfOk, length};
ghost use Rattle.heap_words.specs.Heaps.{RefersInside, is_inside};
ghost use Rattle.trial_machine.specs.Goals.{HasStatus};
ghost use Rattle.trial_rows.specs.Turns.{Picture, picture, MayTurn, IsGiven, shown_in};
ghost use Rattle.trial_rows.specs.TurnLaws.{turn_laws};
ghost use Rattle.trial_rows.specs.declared.turning.Turning.{Turning};

use crate::prepared::prepare;
use heap_words::{Cell, Words, encode};
use machine_code::Code;
use std::alloc::Global;
use std::test::Fail;
use trial_machine::{Machine, Trial};

/// The place of a goal's first variable.
pub(crate) const PLACE: u32 = 2;

/// The number to which it is bound.
pub(crate) const NUMBER: i64 = 2;

/// The words of a heap. After so many loads another writer binds a place.
#[derive(Drop)]
pub(crate) struct Turning {
    words: Vec<u64>,
    place: u32,
    bound: u64,
    loads: u32,
}

impl Turning {
    /// The word that the next load gives.
    fn given(&self, addr: u32) -> u64
        requires { is_inside self.now.words.items addr ≡ true }
        ensures { IsGiven (picture self.now.words.items self.now.place self.now.bound) addr result }
    {
        if self.loads == 0 && addr == self.place {
            self.bound
        } else {
            self.words[addr as usize]
        }
    }
}

impl Words for Turning {
    ghost addresses = { λ t. length t.words.items };

    ghost sound = { λ t. MayTurn (picture t.words.items t.place t.bound) };

    ghost knows = { λ t a. is_inside t.words.items a ≡ true };

    ghost had = { λ t a x. IsGiven (picture t.words.items t.place t.bound) a x };

    ghost leads = { λ t x. RefersInside t.words.items x };

    ghost own = { λ t a. None };

    ghost shown = { λ t. shown_in (picture t.words.items t.place t.bound) };

    ghost later = { λ t u. picture t.words.items t.place t.bound ≡ picture u.words.items u.place u.bound };

    ghost gave = { λ t u a x. (picture t.words.items t.place t.bound ≡ picture u.words.items u.place u.bound)
        × IsGiven (picture u.words.items u.place u.bound) a x };

    ghost once = { λ t u a x. (picture t.words.items t.place t.bound ≡ picture u.words.items u.place u.bound)
        × IsGiven (picture u.words.items u.place u.bound) a x };

    ghost laws = { turn_laws (λ (t : Turning). picture t.words.items t.place t.bound) };

    fn load(&mut self, addr: u32) -> u64 {
        let word = self.given(addr);
        self.loads = self.loads.saturating_sub(1);
        word
    }
}

/// The words of a goal, and the address of its first process. The place of its first variable is bound after so many loads.
fn prepare_turning(
    alloc: Global,
    file: &str,
    goal: &str,
    loads: u32,
) -> Result<(Turning, u32), Fail>
    ensures sound { IfOk result (λ r. MayTurn (picture r.0.words.items r.0.place r.0.bound)) }
    ensures process { IfOk result (λ r. HasStatus {S = Turning} (λ t a x. IsGiven (picture t.words.items t.place t.bound) a x) r.0 r.1) }
{
    let laid = prepare(alloc, file, goal, 1)?;
    if laid.variables == 0 {
        return Err("no variable".into());
    }
    let turning = Turning {
        words: laid.heap.into_words(),
        place: PLACE,
        bound: encode(Cell::Small(NUMBER)),
        loads,
    };
    Ok((turning, laid.process))
}

/// How code decides the first process of a goal, of whose words the place of the first variable is bound after so many loads.
pub(crate) fn decide_turning(
    alloc: Global,
    machine: &mut Machine,
    code: &Code,
    file: &str,
    goal: &str,
    loads: u32,
) -> Result<Trial, Fail> {
    let (mut words, process) = prepare_turning(alloc, file, goal, loads)?;
    Ok(machine.trial(code, process, &mut words)?)
}
