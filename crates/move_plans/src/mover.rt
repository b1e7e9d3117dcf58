//! The process that moves, by the words that are read of it.
ghost use Rattle.std.specs.Prelude.{◌≡◌, [], OnOk, IfOk};
ghost use Rattle.heap_words.specs.Cells.{decoded};
ghost use Rattle.safe_tries.specs.Stored.{IsStored};
ghost use Rattle.trial_machine.specs.Goals.{HasStatus};
ghost use Rattle.trial_machine.specs.Stores.{Loads};
ghost use Rattle.move_plans.specs.Movers.{MoverSays, MoverRead};

use fcp_model::NoMemory;
use heap_words::{Cell, Stand, Trail, Words, decode};
use trial_machine::load_word;

/// What was read of a process.
pub(crate) enum Mover {
    /// It is Ready, and its name word has this number.
    Named(u64),
    /// It is not Ready.
    Other(Stand),
    /// No store has such words of a process.
    Nowhere,
}

/// What the words of a status and of a name say.
fn mover_in(status: u64, name: u64) -> Mover
    ensures { MoverSays (decoded status) (decoded name) result }
{
    let Some(Cell::Status(stand)) = decode(status) else {
        return Mover::Nowhere;
    };
    if stand != Stand::Ready {
        return Mover::Other(stand);
    }
    match decode(name) {
        Some(Cell::Small(number)) => if number >= 0 {
            Mover::Named(number as u64)
        } else {
            Mover::Nowhere
        },
        _ => Mover::Nowhere,
    }
}

/// Loads and keeps the status and the name of a process, where nothing is bound.
pub(crate) fn load_mover<W: Words>(
    trail: &mut Trail,
    words: &mut W,
    process: u32,
) -> Result<Mover, NoMemory>
    requires stored { IsStored W.addresses W.sound W.had W.shown W.later trail.old.kept words.old }
    requires free { trail.old.binds ≡ [] }
    requires process { HasStatus W.had words.old process }
    ensures between { W.later words.old words.new }
    ensures loaded { OnOk result (Loads W.addresses W.sound W.had W.shown W.later W.gave trail.old.kept words.old trail.new.kept
        words.new) }
    ensures binds { trail.new.binds ≡ trail.old.binds }
    ensures mover { IfOk result (MoverRead trail.new.kept process) }
{
    let status = load_word(trail, words, process)?;
    let name = load_word(trail, words, process + 1)?;
    Ok(mover_in(status, name))
}
