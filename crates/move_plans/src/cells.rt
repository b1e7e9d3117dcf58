//! The cells of a commit.
ghost use Rattle.std.specs.Prelude.{◌≡◌, [], OnOk, IfOk, option_map};
ghost use Rattle.machine_code.specs.Compiling.{name_said};
ghost use Rattle.safe_tries.specs.Stored.{IsStored};
ghost use Rattle.trial_machine.specs.Goals.{HasStatus};
ghost use Rattle.trial_machine.specs.Stores.{Loads};
ghost use Rattle.move_plans.specs.Sizes.{cells_where, cells_by, cells_found, CellsRead};

use fcp_model::{NoMemory, Sym, TRUE_PROCEDURE};
use heap_words::{Trail, Words};
use machine_code::Code;
use trial_machine::load_number;

/// The cells of a commit by a clause, where the procedure has so many arguments as the call; else 1.
fn where_called(name: Option<(Sym, u32)>, count: u32, cells: Option<u32>) -> u32
    ensures { result ≡ cells_where (option_map name_said name) count cells }
{
    match name {
        Some((_, arity)) => if arity == count {
            cells.unwrap_or(1)
        } else {
            1
        },
        None => 1,
    }
}

/// The cells of a commit by a procedure's clause of a number from 1, or of a built-in process.
fn cells_of(code: &Code, procedure: u32, count: u32, clause: u32) -> u32
    ensures { result ≡ cells_by code.now.procedures procedure count clause }
{
    if procedure < TRUE_PROCEDURE {
        where_called(code.name(procedure), count, code.cells(procedure, clause))
    } else {
        1
    }
}

/// The same, where the procedure and the number of arguments were read, or one of them was not.
fn cells_if(code: &Code, procedure: Option<u32>, count: Option<u32>, clause: u32) -> u32
    ensures { result ≡ cells_found code.now.procedures procedure count clause }
{
    match (procedure, count) {
        (Some(procedure), Some(count)) => cells_of(code, procedure, count, clause),
        _ => 1,
    }
}

/// Loads and keeps which procedure a process calls, and answers the cells of its commit by a clause.
pub(crate) fn load_cells<W: Words>(
    trail: &mut Trail,
    words: &mut W,
    code: &Code,
    process: u32,
    clause: u32,
) -> Result<u32, NoMemory>
    requires stored { IsStored W.addresses W.sound W.had W.shown W.later trail.old.kept words.old }
    requires free { trail.old.binds ≡ [] }
    requires process { HasStatus W.had words.old process }
    ensures between { W.later words.old words.new }
    ensures loaded { OnOk result (Loads W.addresses W.sound W.had W.shown W.later W.gave trail.old.kept words.old trail.new.kept
        words.new) }
    ensures binds { trail.new.binds ≡ trail.old.binds }
    ensures cells { IfOk result (CellsRead code.now trail.new.kept process clause) }
{
    let procedure = load_number(trail, words, process + 2)?;
    let count = load_number(trail, words, process + 3)?;
    Ok(cells_if(code, procedure, count, clause))
}
