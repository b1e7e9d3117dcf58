//! The arguments of a call.
ghost use Rattle.std.specs.Prelude.{◌≡◌, ◌+◌, ◌≤◌, OnOk};
ghost use Rattle.heap_words.specs.Trails.{KeepsLoads};
ghost use Rattle.entry_lines.specs.Reading.{ReadsStore};
ghost use Rattle.process_texts.specs.Reading.{KnowsFrom};
ghost use Rattle.process_texts.specs.Texts.{AddsMore, AddsArguments};

use crate::reading::push_argument;
use fcp_model::spelling::push_bytes;
use fcp_model::{Names, NoMemory};
use heap_words::{Trail, Words};
use word_texts::TextLists;

/// Puts so many arguments from an address on, each after a comma.
fn push_more<W: Words>(
    texts: &mut TextLists,
    trail: &mut Trail,
    words: &mut W,
    names: &Names,
    out: &mut Vec<u8>,
    first: u32,
    count: u32,
) -> Result<(), NoMemory>
    requires reads { ReadsStore W.sound W.had W.leads W.own W.addresses trail.old.kept trail.old.binds words.old }
    requires known { KnowsFrom (W.knows words.old) first count }
    ensures between { W.later words.old words.new }
    ensures loaded { OnOk result (KeepsLoads W.sound W.had W.leads W.later W.gave trail.old.kept trail.old.binds words.old
        trail.new.kept trail.new.binds words.new) }
    ensures binds { trail.new.binds ≡ trail.old.binds }
    ensures text { OnOk result (AddsMore trail.new.kept names.now first count out.old.items out.new.items) }
{
    for at in 0..count {
        push_bytes(out, b",")?;
        push_argument(texts, trail, words, names, out, first + at)?;
    }
    Ok(())
}

/// Puts so many arguments from an address on, in parentheses, with commas between; nothing where there are none.
pub(crate) fn push_arguments<W: Words>(
    texts: &mut TextLists,
    trail: &mut Trail,
    words: &mut W,
    names: &Names,
    out: &mut Vec<u8>,
    first: u32,
    count: u32,
) -> Result<(), NoMemory>
    requires reads { ReadsStore W.sound W.had W.leads W.own W.addresses trail.old.kept trail.old.binds words.old }
    requires known { KnowsFrom (W.knows words.old) first count }
    ensures between { W.later words.old words.new }
    ensures loaded { OnOk result (KeepsLoads W.sound W.had W.leads W.later W.gave trail.old.kept trail.old.binds words.old
        trail.new.kept trail.new.binds words.new) }
    ensures binds { trail.new.binds ≡ trail.old.binds }
    ensures text { OnOk result (AddsArguments trail.new.kept names.now first count out.old.items out.new.items) }
{
    if count == 0 {
        return Ok(());
    }
    push_bytes(out, b"(")?;
    push_argument(texts, trail, words, names, out, first)?;
    push_more(texts, trail, words, names, out, first + 1, count - 1)?;
    push_bytes(out, b")")?;
    Ok(())
}
