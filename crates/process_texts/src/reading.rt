//! Words and cells at known addresses, and the values of words.
ghost use Rattle.std.specs.Prelude.{◌≡◌, IfOk, OnOk};
ghost use Rattle.heap_words.specs.Trails.{KeepsLoads};
ghost use Rattle.entry_lines.specs.Reading.{ReadsStore};
ghost use Rattle.process_texts.specs.Reading.{WordRead, CellRead, HadCell};
ghost use Rattle.process_texts.specs.Texts.{AddsTerm, AddsArgument};

use fcp_model::{Names, NoMemory};
use heap_words::{Cell, Trail, Words, decode};
use word_texts::{TextLists, value_text};

/// How many nodes of a value are written.
const NODES: u32 = 1024;

/// The word at a known address.
pub(crate) fn word_at<W: Words>(
    trail: &mut Trail,
    words: &mut W,
    addr: u32,
) -> Result<u64, NoMemory>
    requires reads { ReadsStore W.sound W.had W.leads W.own W.addresses trail.old.kept trail.old.binds words.old }
    requires known { W.knows words.old addr }
    ensures between { W.later words.old words.new }
    ensures loaded { OnOk result (KeepsLoads W.sound W.had W.leads W.later W.gave trail.old.kept trail.old.binds words.old
        trail.new.kept trail.new.binds words.new) }
    ensures binds { trail.new.binds ≡ trail.old.binds }
    ensures word { IfOk result (WordRead trail.new.kept addr) }
    ensures had { IfOk result (W.had words.new addr) }
{
    let word = trail.word(words, addr)?;
    Ok(word)
}

/// The cell at a known address.
pub(crate) fn cell_at<W: Words>(
    trail: &mut Trail,
    words: &mut W,
    addr: u32,
) -> Result<Option<Cell>, NoMemory>
    requires reads { ReadsStore W.sound W.had W.leads W.own W.addresses trail.old.kept trail.old.binds words.old }
    requires known { W.knows words.old addr }
    ensures between { W.later words.old words.new }
    ensures loaded { OnOk result (KeepsLoads W.sound W.had W.leads W.later W.gave trail.old.kept trail.old.binds words.old
        trail.new.kept trail.new.binds words.new) }
    ensures binds { trail.new.binds ≡ trail.old.binds }
    ensures cell { IfOk result (CellRead trail.new.kept addr) }
    ensures had { IfOk result (HadCell W.had words.new addr) }
{
    let word = word_at(trail, words, addr)?;
    Ok(decode(word))
}

/// Puts the value of a word after a text, cut after 1,024 nodes.
pub(crate) fn push_value<W: Words>(
    texts: &mut TextLists,
    trail: &mut Trail,
    words: &mut W,
    names: &Names,
    out: &mut Vec<u8>,
    word: u64,
) -> Result<(), NoMemory>
    requires reads { ReadsStore W.sound W.had W.leads W.own W.addresses trail.old.kept trail.old.binds words.old }
    requires leads { W.leads words.old word }
    ensures between { W.later words.old words.new }
    ensures loaded { OnOk result (KeepsLoads W.sound W.had W.leads W.later W.gave trail.old.kept trail.old.binds words.old
        trail.new.kept trail.new.binds words.new) }
    ensures binds { trail.new.binds ≡ trail.old.binds }
    ensures text { OnOk result (AddsTerm trail.new.kept names.now word out.old.items out.new.items) }
{
    value_text(texts, trail, words, names, out, word, NODES)?;
    Ok(())
}

/// Puts the value of the word at a known address after a text.
pub(crate) fn push_argument<W: Words>(
    texts: &mut TextLists,
    trail: &mut Trail,
    words: &mut W,
    names: &Names,
    out: &mut Vec<u8>,
    addr: u32,
) -> Result<(), NoMemory>
    requires reads { ReadsStore W.sound W.had W.leads W.own W.addresses trail.old.kept trail.old.binds words.old }
    requires known { W.knows words.old addr }
    ensures between { W.later words.old words.new }
    ensures loaded { OnOk result (KeepsLoads W.sound W.had W.leads W.later W.gave trail.old.kept trail.old.binds words.old
        trail.new.kept trail.new.binds words.new) }
    ensures binds { trail.new.binds ≡ trail.old.binds }
    ensures text { OnOk result (AddsArgument trail.new.kept names.now addr out.old.items out.new.items) }
{
    let word = word_at(trail, words, addr)?;
    push_value(texts, trail, words, names, out, word)?;
    Ok(())
}
