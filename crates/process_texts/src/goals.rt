//! The text of a process's goal.
ghost use Rattle.std.specs.Prelude.{◌≡◌, ℕ, ◌+◌, ◌<◌, ◌≤◌, ◌++◌, Some, OnOk, MatchOption};
ghost use Rattle.fcp_model.specs.ReportText.{procedure_text};
ghost use Rattle.fcp_model.specs.Translation.{program_of};
ghost use Rattle.heap_words.specs.Trails.{KeepsLoads};
ghost use Rattle.heap_words.specs.declared.cell.Cell.TheVariants.{Raw};
ghost use Rattle.entry_lines.specs.Reading.{ReadsStore};
ghost use Rattle.process_texts.specs.Reading.{HadStatus, KnowsFrom};
ghost use Rattle.process_texts.specs.Texts.{AddsPair, AddsAssignment, AddsCalled, AddsGoal};

use crate::arguments::push_arguments;
use crate::expressions::push_expression;
use crate::items::ProcessLists;
use crate::reading::{cell_at, push_argument};
use fcp_model::spelling::{push_bytes, push_string};
use fcp_model::{Loaded, Names, NoMemory, TRUE_PROCEDURE, UNIFY_PROCEDURE};
use heap_words::{Cell, Trail, Words};
use word_texts::TextLists;

/// Puts the name of a procedure after a text; nothing where there is none of this number.
fn push_procedure(
    out: &mut Vec<u8>,
    names: &Names,
    loaded: &Loaded,
    procedure: u32,
) -> Result<(), NoMemory>
    ensures { OnOk result (out.new.items ≡ out.old.items ++ procedure_text names.now (program_of loaded.now) procedure) }
{
    if procedure >= loaded.procedures() {
        return Ok(());
    }
    push_string(out, names.text_or_empty(loaded.name(procedure).name))
}

/// Puts the two arguments from an address on, with ` = ` between.
fn push_unification<W: Words>(
    texts: &mut TextLists,
    trail: &mut Trail,
    words: &mut W,
    names: &Names,
    out: &mut Vec<u8>,
    first: u32,
) -> Result<(), NoMemory>
    requires reads { ReadsStore W.sound W.had W.leads W.own W.addresses trail.old.kept trail.old.binds words.old }
    requires known { KnowsFrom (W.knows words.old) first 2 }
    ensures between { W.later words.old words.new }
    ensures loaded { OnOk result (KeepsLoads W.sound W.had W.leads W.later W.gave trail.old.kept trail.old.binds words.old
        trail.new.kept trail.new.binds words.new) }
    ensures binds { trail.new.binds ≡ trail.old.binds }
    ensures text { OnOk result (AddsPair trail.new.kept names.now first out.old.items out.new.items) }
{
    push_argument(texts, trail, words, names, out, first)?;
    push_bytes(out, b" = ")?;
    push_argument(texts, trail, words, names, out, first + 1)?;
    Ok(())
}

/// Puts the argument and the expression from an address on, with ` := ` between.
fn push_assignment<W: Words>(
    lists: &mut ProcessLists,
    trail: &mut Trail,
    words: &mut W,
    names: &Names,
    out: &mut Vec<u8>,
    first: u32,
) -> Result<(), NoMemory>
    requires reads { ReadsStore W.sound W.had W.leads W.own W.addresses trail.old.kept trail.old.binds words.old }
    requires known { KnowsFrom (W.knows words.old) first 2 }
    ensures between { W.later words.old words.new }
    ensures loaded { OnOk result (KeepsLoads W.sound W.had W.leads W.later W.gave trail.old.kept trail.old.binds words.old
        trail.new.kept trail.new.binds words.new) }
    ensures binds { trail.new.binds ≡ trail.old.binds }
    ensures text { OnOk result (AddsAssignment trail.new.kept names.now first out.old.items out.new.items) }
{
    push_argument(&mut lists.texts, trail, words, names, out, first)?;
    push_bytes(out, b" := ")?;
    push_expression(lists, trail, words, names, out, first + 1)?;
    Ok(())
}

/// Puts the goal of a process whose words say this procedure and so many arguments, which stand from an address on.
fn push_called<W: Words>(
    lists: &mut ProcessLists,
    trail: &mut Trail,
    words: &mut W,
    names: &Names,
    loaded: &Loaded,
    out: &mut Vec<u8>,
    process: u32,
    procedure: u32,
    count: u32,
) -> Result<(), NoMemory>
    requires reads { ReadsStore W.sound W.had W.leads W.own W.addresses trail.old.kept trail.old.binds words.old }
    requires low { process + 4 < 4294967296 }
    requires known { KnowsFrom (W.knows words.old) (process + 4) count }
    ensures between { W.later words.old words.new }
    ensures loaded { OnOk result (KeepsLoads W.sound W.had W.leads W.later W.gave trail.old.kept trail.old.binds words.old
        trail.new.kept trail.new.binds words.new) }
    ensures binds { trail.new.binds ≡ trail.old.binds }
    ensures text { OnOk result (AddsCalled trail.new.kept names.now (program_of loaded.now) process (procedure, count) out.old.items
        out.new.items) }
{
    let first = process + 4;
    if procedure == TRUE_PROCEDURE {
        push_bytes(out, b"true")?;
        return Ok(());
    }
    if procedure < TRUE_PROCEDURE {
        push_procedure(out, names, loaded, procedure)?;
        push_arguments(&mut lists.texts, trail, words, names, out, first, count)?;
        return Ok(());
    }
    if count != 2 {
        return Ok(());
    }
    if procedure == UNIFY_PROCEDURE {
        push_unification(&mut lists.texts, trail, words, names, out, first)?;
        return Ok(());
    }
    push_assignment(lists, trail, words, names, out, first)?;
    Ok(())
}

/// The number that stands in a cell, where it is that of one.
fn number_in(cell: Option<Cell>) -> Option<u32>
    ensures { MatchOption result ((k : ℕ) → cell ≡ Some (Raw k) → ⊥) (λ k. cell ≡ Some (Raw k)) }
{
    match cell {
        Some(Cell::Raw(number)) => Some(number),
        _ => None,
    }
}

/// Puts the goal of the process at an address after a text, by value, each argument cut after 1,024 nodes.
pub(crate) fn push_goal<W: Words>(
    lists: &mut ProcessLists,
    trail: &mut Trail,
    words: &mut W,
    names: &Names,
    loaded: &Loaded,
    out: &mut Vec<u8>,
    process: u32,
) -> Result<(), NoMemory>
    requires reads { ReadsStore W.sound W.had W.leads W.own W.addresses trail.old.kept trail.old.binds words.old }
    requires status { HadStatus W.had words.old process }
    ensures between { W.later words.old words.new }
    ensures loaded { OnOk result (KeepsLoads W.sound W.had W.leads W.later W.gave trail.old.kept trail.old.binds words.old
        trail.new.kept trail.new.binds words.new) }
    ensures binds { trail.new.binds ≡ trail.old.binds }
    ensures text { OnOk result (AddsGoal trail.new.kept names.now (program_of loaded.now) process out.old.items out.new.items) }
{
    let second = cell_at(trail, words, process + 2)?;
    let Some(procedure) = number_in(second) else {
        return Ok(());
    };
    let third = cell_at(trail, words, process + 3)?;
    let Some(count) = number_in(third) else {
        return Ok(());
    };
    push_called(
        lists, trail, words, names, loaded, out, process, procedure, count,
    )?;
    Ok(())
}
