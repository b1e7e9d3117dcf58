//! The values of places.
ghost use Rattle.std.specs.Prelude.{◌≡◌, ◌-◌, ◌*◌, ◌<◌, OnOk};
ghost use Rattle.heap_words.specs.Trails.{KeepsLoads};
ghost use Rattle.entry_lines.specs.Reading.{ReadsStore};
ghost use Rattle.entry_lines.specs.Texts.{AddsValue};

use fcp_model::{Names, NoMemory};
use heap_words::{Cell, Trail, Words, encode};
use word_texts::{TextLists, value_text};

/// Puts the value of the place whose word is at an address after a text, cut after so many nodes.
pub(crate) fn push_value<W: Words>(
    lists: &mut TextLists,
    trail: &mut Trail,
    words: &mut W,
    names: &Names,
    out: &mut Vec<u8>,
    place: u32,
    nodes: u32,
) -> Result<(), NoMemory>
    requires reads { ReadsStore W.sound W.had W.leads W.own W.addresses trail.old.kept trail.old.binds words.old }
    requires known { (0 < place) × W.knows words.old place × W.knows words.old (place - 1) }
    ensures between { W.later words.old words.new }
    ensures loaded { OnOk result (KeepsLoads W.sound W.had W.leads W.later W.gave trail.old.kept trail.old.binds words.old
        trail.new.kept trail.new.binds words.new) }
    ensures binds { trail.new.binds ≡ trail.old.binds }
    ensures text { OnOk result (AddsValue trail.new.kept names.now nodes place out.old.items out.new.items) }
{
    let word = encode(Cell::Ref(place));
    value_text(lists, trail, words, names, out, word, nodes)?;
    Ok(())
}
