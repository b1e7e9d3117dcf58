//! The lines of the goal's variables.
ghost use Rattle.std.specs.Prelude.{◌≡◌, ◌++◌, ◌-◌, ◌*◌, ◌<◌, ◌≤◌, OnOk};
ghost use Rattle.fcp_model.specs.Spelling.{name_at};
ghost use Rattle.heap_words.specs.Trails.{KeepsLoads};
ghost use Rattle.entry_lines.specs.Reading.{ReadsStore};
ghost use Rattle.entry_lines.specs.Texts.{AddsVariable};

use crate::values::push_value;
use fcp_model::spelling::push_bytes;
use fcp_model::{Names, NoMemory, Sym};
use heap_words::{Trail, Words};
use word_texts::TextLists;

/// Puts the string of a number, without quotes. A number that the list lacks has the empty one.
fn push_name(out: &mut Vec<u8>, names: &Names, name: Sym) -> Result<(), NoMemory>
    ensures { OnOk result (out.new.items ≡ out.old.items ++ name_at names.now name.0) }
{
    push_bytes(out, names.text_or_empty(name).as_bytes())
}

/// Puts `NAME = TERM` for the goal's variable of that number, from 1, by value and cut after 65,536 nodes; nothing where it has no name.
pub(crate) fn push_variable<W: Words>(
    lists: &mut TextLists,
    trail: &mut Trail,
    words: &mut W,
    names: &Names,
    out: &mut Vec<u8>,
    number: u32,
    variable: Option<Sym>,
) -> Result<(), NoMemory>
    requires reads { ReadsStore W.sound W.had W.leads W.own W.addresses trail.old.kept trail.old.binds words.old }
    requires few { (0 < number) × (number ≤ 250) }
    requires known { W.knows words.old (2 * number) × W.knows words.old (2 * number - 1) }
    ensures between { W.later words.old words.new }
    ensures loaded { OnOk result (KeepsLoads W.sound W.had W.leads W.later W.gave trail.old.kept trail.old.binds words.old
        trail.new.kept trail.new.binds words.new) }
    ensures binds { trail.new.binds ≡ trail.old.binds }
    ensures text { OnOk result (AddsVariable trail.new.kept names.now variable number out.old.items out.new.items) }
{
    let Some(name) = variable else {
        return Ok(());
    };
    push_name(out, names, name)?;
    push_bytes(out, b" = ")?;
    push_value(lists, trail, words, names, out, 2 * number, 65536)?;
    push_bytes(out, b"\n")?;
    Ok(())
}
