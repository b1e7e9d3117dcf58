//! Each function puts a text after another one. What it loads it keeps on a trail, of which all else is dropped before. The only error is
//! want of memory, after which a front of the text may stand there.
ghost use Rattle.std.specs.Prelude.{◌≡◌, ◌+◌, ◌*◌, ◌-◌, ◌<◌, ◌≤◌, ℕ, [], OnOk, length};
ghost use Rattle.heap_words.specs.Trails.{KeepsLoads};
ghost use Rattle.word_states.specs.Words.{IsIn};
ghost use Rattle.entry_lines.specs.Lines.{CommitLine, HangLine, VariableLines};

use crate::commits::{push_all_bound, push_woken};
use crate::hangs::waiting_set;
use crate::variables::push_variable;
use fcp_model::spelling::{push_bytes, push_decimal, push_process};
use fcp_model::{Names, NoMemory, Proc, Sym, log_lines};
use heap_words::{Trail, Words};
use word_texts::TextLists;

/// Puts `N commit #a.b K`, what the commit bound, by value and cut after 64 nodes, and whom it woke. `bound` are the addresses of the
/// places, in the order in which they were bound, `woken` those of the processes, by name.
pub fn push_commit_line<W: Words>(
    lists: &mut TextLists,
    trail: &mut Trail,
    words: &mut W,
    names: &Names,
    out: &mut Vec<u8>,
    entry: u32,
    process: Proc,
    clause: u32,
    bound: &[u32],
    woken: &[u32],
) -> Result<(), NoMemory>
    requires sound { W.sound words.old }
    requires store { W.addresses words.old ≤ 4000000000 }
    requires places { (a : ℕ) → IsIn a bound.now → (0 < a) × W.knows words.old a × W.knows words.old (a - 1) }
    requires processes { (q : ℕ) → IsIn q woken.now → (q + 1 < 4294967296) × W.knows words.old (q + 1) }
    ensures between { W.later words.old words.new }
    ensures loaded { OnOk result (KeepsLoads W.sound W.had W.leads W.later W.gave [] [] words.old trail.new.kept trail.new.binds
        words.new) }
    ensures line { OnOk result (CommitLine names.now trail.new.kept entry process clause bound.now woken.now out.old.items out.new.items) }
{
    trail.clear();
    push_decimal(out, entry)?;
    push_bytes(out, b" commit ")?;
    push_process(out, process)?;
    push_bytes(out, b" ")?;
    push_decimal(out, clause)?;
    push_all_bound(lists, trail, words, names, out, bound)?;
    push_woken(trail, words, out, woken)?;
    push_bytes(out, b"\n")?;
    Ok(())
}

/// Puts `N hang #a.b` and the places of the waiting set, by age. `waits` are their addresses, in any order.
pub fn push_hang_line<W: Words>(
    trail: &mut Trail,
    words: &mut W,
    names: &Names,
    out: &mut Vec<u8>,
    entry: u32,
    process: Proc,
    waits: &[u32],
) -> Result<(), NoMemory>
    requires sound { W.sound words.old }
    requires store { W.addresses words.old ≤ 4000000000 }
    requires places { (a : ℕ) → IsIn a waits.now → (0 < a) × W.knows words.old (a - 1) }
    ensures between { W.later words.old words.new }
    ensures loaded { OnOk result (KeepsLoads W.sound W.had W.leads W.later W.gave [] [] words.old trail.new.kept trail.new.binds
        words.new) }
    ensures line { OnOk result (HangLine names.now trail.new.kept entry process waits.now out.old.items out.new.items) }
{
    trail.clear();
    let mut places = Vec::new(*out.allocator());
    waiting_set(&mut places, trail, words, waits)?;
    log_lines::push_hang_line(out, entry, process, places.as_slice())?;
    Ok(())
}

/// Puts a line for each of the goal's variables that has a name, by value and cut after 65,536 nodes. The place of variable k, from 1,
/// has its word at 2k.
pub fn push_variable_lines<W: Words>(
    lists: &mut TextLists,
    trail: &mut Trail,
    words: &mut W,
    names: &Names,
    out: &mut Vec<u8>,
    variables: &[Option<Sym>],
) -> Result<(), NoMemory>
    requires sound { W.sound words.old }
    requires store { W.addresses words.old ≤ 4000000000 }
    requires few { length variables.now ≤ 250 }
    requires places { (k : ℕ) → 1 ≤ k → k ≤ length variables.now → W.knows words.old (2 * k) × W.knows words.old (2 * k - 1) }
    ensures between { W.later words.old words.new }
    ensures loaded { OnOk result (KeepsLoads W.sound W.had W.leads W.later W.gave [] [] words.old trail.new.kept trail.new.binds
        words.new) }
    ensures line { OnOk result (VariableLines names.now trail.new.kept variables.now out.old.items out.new.items) }
{
    trail.clear();
    for (at, variable) in variables.iter().enumerate() {
        push_variable(lists, trail, words, names, out, at as u32 + 1, *variable)?;
    }
    Ok(())
}
