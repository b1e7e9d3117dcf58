//! The names of places and of processes, by the words in which they stand.
ghost use Rattle.std.specs.Prelude.{◌≡◌, ◌+◌, ◌-◌, ◌*◌, ◌<◌, IfOk, OnOk};
ghost use Rattle.heap_words.specs.Cells.{decoded};
ghost use Rattle.heap_words.specs.Trails.{KeepsLoads, Says};
ghost use Rattle.word_texts.specs.Leaves.{place_of};
ghost use Rattle.entry_lines.specs.Reading.{ReadsStore, NamesPlace, NamesProcess};

use fcp_model::{NoMemory, Place, Proc};
use heap_words::{Trail, Words};
use word_texts::place_in;

/// The two numbers of the name that stands at an address.
fn name_at<W: Words>(trail: &mut Trail, words: &mut W, addr: u32) -> Result<Place, NoMemory>
    requires reads { ReadsStore W.sound W.had W.leads W.own W.addresses trail.old.kept trail.old.binds words.old }
    requires known { W.knows words.old addr }
    ensures between { W.later words.old words.new }
    ensures loaded { OnOk result (KeepsLoads W.sound W.had W.leads W.later W.gave trail.old.kept trail.old.binds words.old
        trail.new.kept trail.new.binds words.new) }
    ensures binds { trail.new.binds ≡ trail.old.binds }
    ensures name { IfOk result (λ j. Says (W.own words.new) trail.new.kept (λ m. place_of (decoded (m addr)) ≡ j)) }
{
    let word = trail.word(words, addr)?;
    Ok(place_in(word))
}

/// The name of the place whose word is at an address. It stands in the word before.
pub(crate) fn place_name<W: Words>(
    trail: &mut Trail,
    words: &mut W,
    place: u32,
) -> Result<Place, NoMemory>
    requires reads { ReadsStore W.sound W.had W.leads W.own W.addresses trail.old.kept trail.old.binds words.old }
    requires known { (0 < place) × W.knows words.old (place - 1) }
    ensures between { W.later words.old words.new }
    ensures loaded { OnOk result (KeepsLoads W.sound W.had W.leads W.later W.gave trail.old.kept trail.old.binds words.old
        trail.new.kept trail.new.binds words.new) }
    ensures binds { trail.new.binds ≡ trail.old.binds }
    ensures name { IfOk result (NamesPlace trail.new.kept place) }
{
    let name = name_at(trail, words, place - 1)?;
    Ok(name)
}

/// The name of the process at an address. It stands in the word after its status.
pub fn process_name<W: Words>(
    trail: &mut Trail,
    words: &mut W,
    process: u32,
) -> Result<Proc, NoMemory>
    requires reads { ReadsStore W.sound W.had W.leads W.own W.addresses trail.old.kept trail.old.binds words.old }
    requires known { (process + 1 < 4294967296) × W.knows words.old (process + 1) }
    ensures between { W.later words.old words.new }
    ensures loaded { OnOk result (KeepsLoads W.sound W.had W.leads W.later W.gave trail.old.kept trail.old.binds words.old
        trail.new.kept trail.new.binds words.new) }
    ensures binds { trail.new.binds ≡ trail.old.binds }
    ensures name { IfOk result (NamesProcess trail.new.kept process) }
{
    let name = name_at(trail, words, process + 1)?;
    Ok(Proc {
        entry: name.entry,
        number: name.number,
    })
}
