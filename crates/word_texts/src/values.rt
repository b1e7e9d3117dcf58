//! The text of a value.
ghost use Rattle.std.specs.Prelude.{◌≡◌, OnOk, OnErr};
ghost use Rattle.heap_words.specs.Trails.{Holds, KeepsLoads, Says};
ghost use Rattle.ro_unify.specs.Walks.{Tame};
ghost use Rattle.word_texts.specs.Turns.{Appends};
ghost use Rattle.word_texts.specs.Shown.{IsShown, IsFront, Stops};

use crate::items::{Item, TextLists, push_item};
use crate::writing::write_all;
use fcp_model::{Names, NoMemory};
use heap_words::{Trail, Words};

/// Puts the text of a word's value after a text, under the private bindings, and cut after so many nodes. No read is noted. Where
/// memory ran out, a front of the text may stand there.
pub fn value_text<W: Words>(
    lists: &mut TextLists,
    trail: &mut Trail,
    words: &mut W,
    names: &Names,
    out: &mut Vec<u8>,
    word: u64,
    nodes: u32,
) -> Result<(), NoMemory>
    requires sound { W.sound words.old }
    requires holds { Holds W.had W.leads trail.old.kept trail.old.binds words.old }
    requires leads { W.leads words.old word }
    requires tame { Tame trail.old.binds trail.old.kept (W.own words.old) (W.addresses words.old) }
    ensures between { W.later words.old words.new }
    ensures loaded { OnOk result (KeepsLoads W.sound W.had W.leads W.later W.gave trail.old.kept trail.old.binds words.old
        trail.new.kept trail.new.binds words.new) }
    ensures binds { trail.new.binds ≡ trail.old.binds }
    ensures reads { trail.new.reads.items ≡ trail.old.reads.items }
    ensures tame { OnOk result (Tame trail.new.binds trail.new.kept (W.own words.new) (W.addresses words.new)) }
    ensures shown { OnOk result (Says (W.own words.new) trail.new.kept
        (λ m. IsShown m trail.old.binds names.now nodes word out.old.items out.new.items)) }
    ensures front { OnErr result (Stops W.sound W.had W.leads W.later W.gave W.own trail.old.kept trail.old.binds words.old words.new
        (λ m. IsFront m trail.old.binds names.now nodes word out.old.items out.new.items)) }
    ensures appended { Appends out.old.items out.new.items }
{
    lists.items.clear();
    push_item(&mut lists.items, Item::Term(word))?;
    write_all(lists, trail, words, names, out, nodes)?;
    Ok(())
}
