//! One item after another.
ghost use Rattle.std.specs.Prelude.{◌≡◌, ℕ, ◌+◌, ◌<◌, ◌≤◌, ◌++◌, List, IfOk, OnOk, OnErr};
ghost use Rattle.heap_words.specs.Trails.{Holds, KeepsLoads, Says};
ghost use Rattle.ro_unify.specs.Walks.{Tame};
ghost use Rattle.ro_unify.specs.Occurs.{stack, Each};
ghost use Rattle.fcp_model.specs.Spelling.{Bytes};
ghost use Rattle.word_texts.specs.Turns.{closing, Turned, Leads, WritesAll, WritesSome, Appends};
ghost use Rattle.word_texts.specs.Shown.{Stops};

use crate::items::{Bracket, Item, TextLists, push_item};
use crate::leaf::write_leaf;
use crate::turns::{Tail, push_pair, push_parts, tail_at, whole_at, write_tuple};
use fcp_model::spelling::push_bytes;
use fcp_model::{Names, NoMemory};
use heap_words::{Trail, Words};
use ro_unify::{Whole, deref};

/// Writes a term, or what comes before its parts, and answers how many nodes are left.
fn write_term<W: Words>(
    lists: &mut TextLists,
    trail: &mut Trail,
    words: &mut W,
    names: &Names,
    out: &mut Vec<u8>,
    nodes: u32,
    word: u64,
) -> Result<u32, NoMemory>
    requires sound { W.sound words.old }
    requires holds { Holds W.had W.leads trail.old.kept trail.old.binds words.old }
    requires leads { W.leads words.old word }
    requires tame { Tame trail.old.binds trail.old.kept (W.own words.old) (W.addresses words.old) }
    ensures between { W.later words.old words.new }
    ensures loaded { OnOk result (KeepsLoads W.sound W.had W.leads W.later W.gave trail.old.kept trail.old.binds words.old
        trail.new.kept trail.new.binds words.new) }
    ensures binds { trail.new.binds ≡ trail.old.binds }
    ensures reads { trail.new.reads.items ≡ trail.old.reads.items }
    ensures turned { IfOk result (λ j. Says (W.own words.new) trail.new.kept
        (λ m. Turned trail.old.binds m names.now nodes (Item.Term word) (stack lists.old.items.items) out.old.items j
        (stack lists.new.items.items) out.new.items)) }
    ensures leads { OnOk result (Each (Leads (W.knows words.old) (W.leads words.old)) (stack lists.old.items.items)
        → Each (Leads (W.knows words.new) (W.leads words.new)) (stack lists.new.items.items)) }
    ensures err { OnErr result (out.new.items ≡ out.old.items) }
{
    if nodes == 0 {
        push_bytes(out, b"..")?;
        return Ok(0);
    }
    let look = deref(trail, words, word)?;
    match whole_at(look) {
        Whole::Atom => {
            write_leaf(&mut lists.leaf, trail, words, names, out, look)?;
            Ok(nodes - 1)
        }
        Whole::Pair(at) => {
            push_pair(&mut lists.items, trail, words, at)?;
            push_bytes(out, b"[")?;
            Ok(nodes - 1)
        }
        Whole::Tuple(at) => {
            let left = write_tuple(lists, trail, words, names, out, nodes - 1, at)?;
            Ok(left)
        }
    }
}

/// Writes what comes next of the rest of a list, and answers how many nodes are left.
fn write_rest<W: Words>(
    items: &mut Vec<Item>,
    trail: &mut Trail,
    words: &mut W,
    out: &mut Vec<u8>,
    nodes: u32,
    word: u64,
) -> Result<u32, NoMemory>
    requires sound { W.sound words.old }
    requires holds { Holds W.had W.leads trail.old.kept trail.old.binds words.old }
    requires leads { W.leads words.old word }
    requires tame { Tame trail.old.binds trail.old.kept (W.own words.old) (W.addresses words.old) }
    ensures between { W.later words.old words.new }
    ensures loaded { OnOk result (KeepsLoads W.sound W.had W.leads W.later W.gave trail.old.kept trail.old.binds words.old
        trail.new.kept trail.new.binds words.new) }
    ensures binds { trail.new.binds ≡ trail.old.binds }
    ensures reads { trail.new.reads.items ≡ trail.old.reads.items }
    ensures turned { IfOk result (λ j. Says (W.own words.new) trail.new.kept
        (λ m. (names : List Bytes) → Turned trail.old.binds m names nodes (Item.Rest word) (stack items.old.items) out.old.items j
        (stack items.new.items) out.new.items)) }
    ensures leads { OnOk result (Each (Leads (W.knows words.old) (W.leads words.old)) (stack items.old.items)
        → Each (Leads (W.knows words.new) (W.leads words.new)) (stack items.new.items)) }
    ensures err { OnErr result (out.new.items ≡ out.old.items) }
{
    if nodes == 0 {
        push_bytes(out, b"|..]")?;
        return Ok(0);
    }
    let look = deref(trail, words, word)?;
    match tail_at(look) {
        Tail::End => {
            push_bytes(out, b"]")?;
            Ok(nodes - 1)
        }
        Tail::Pair(at) => {
            push_pair(items, trail, words, at)?;
            push_bytes(out, b",")?;
            Ok(nodes - 1)
        }
        Tail::Other => {
            push_item(items, Item::Close(Bracket::Square))?;
            push_item(items, Item::Term(word))?;
            push_bytes(out, b"|")?;
            Ok(nodes)
        }
    }
}

/// Writes the comma before further parts, where there are any.
fn write_parts<W: Words>(
    items: &mut Vec<Item>,
    trail: &mut Trail,
    words: &mut W,
    out: &mut Vec<u8>,
    at: u32,
    count: u32,
) -> Result<(), NoMemory>
    requires sound { W.sound words.old }
    requires holds { Holds W.had W.leads trail.old.kept trail.old.binds words.old }
    requires known { (b : ℕ) → at < b → b ≤ at + count → W.knows words.old b }
    ensures between { W.later words.old words.new }
    ensures loaded { OnOk result (KeepsLoads W.sound W.had W.leads W.later W.gave trail.old.kept trail.old.binds words.old
        trail.new.kept trail.new.binds words.new) }
    ensures binds { trail.new.binds ≡ trail.old.binds }
    ensures reads { trail.new.reads.items ≡ trail.old.reads.items }
    ensures turned { OnOk result (Says (W.own words.new) trail.new.kept
        (λ m. (names : List Bytes) (k : ℕ) → Turned trail.old.binds m names k (Item.Parts at count) (stack items.old.items) out.old.items k
        (stack items.new.items) out.new.items)) }
    ensures leads { OnOk result (Each (Leads (W.knows words.old) (W.leads words.old)) (stack items.old.items)
        → Each (Leads (W.knows words.new) (W.leads words.new)) (stack items.new.items)) }
    ensures err { OnErr result (out.new.items ≡ out.old.items) }
{
    if count == 0 {
        return Ok(());
    }
    push_parts(items, trail, words, at, count)?;
    push_bytes(out, b",")?;
    Ok(())
}

/// Writes a closing bracket.
fn write_closing(out: &mut Vec<u8>, bracket: Bracket) -> Result<(), NoMemory>
    ensures ok { OnOk result (out.new.items ≡ out.old.items ++ closing bracket) }
    ensures err { OnErr result (out.new.items ≡ out.old.items) }
{
    match bracket {
        Bracket::Square => push_bytes(out, b"]"),
        Bracket::Round => push_bytes(out, b")"),
        Bracket::Curly => push_bytes(out, b"}"),
    }
}

/// Writes what an item comes to, and answers how many nodes are left.
fn write_item<W: Words>(
    lists: &mut TextLists,
    trail: &mut Trail,
    words: &mut W,
    names: &Names,
    out: &mut Vec<u8>,
    nodes: u32,
    item: Item,
) -> Result<u32, NoMemory>
    requires sound { W.sound words.old }
    requires holds { Holds W.had W.leads trail.old.kept trail.old.binds words.old }
    requires leads { Leads (W.knows words.old) (W.leads words.old) item }
    requires tame { Tame trail.old.binds trail.old.kept (W.own words.old) (W.addresses words.old) }
    ensures between { W.later words.old words.new }
    ensures loaded { OnOk result (KeepsLoads W.sound W.had W.leads W.later W.gave trail.old.kept trail.old.binds words.old
        trail.new.kept trail.new.binds words.new) }
    ensures binds { trail.new.binds ≡ trail.old.binds }
    ensures reads { trail.new.reads.items ≡ trail.old.reads.items }
    ensures turned { IfOk result (λ j. Says (W.own words.new) trail.new.kept
        (λ m. Turned trail.old.binds m names.now nodes item (stack lists.old.items.items) out.old.items j
        (stack lists.new.items.items) out.new.items)) }
    ensures leads { OnOk result (Each (Leads (W.knows words.old) (W.leads words.old)) (stack lists.old.items.items)
        → Each (Leads (W.knows words.new) (W.leads words.new)) (stack lists.new.items.items)) }
    ensures err { OnErr result (out.new.items ≡ out.old.items) }
{
    match item {
        Item::Term(word) => {
            let left = write_term(lists, trail, words, names, out, nodes, word)?;
            Ok(left)
        }
        Item::Rest(word) => {
            let left = write_rest(&mut lists.items, trail, words, out, nodes, word)?;
            Ok(left)
        }
        Item::Parts(at, count) => {
            write_parts(&mut lists.items, trail, words, out, at, count)?;
            Ok(nodes)
        }
        Item::Close(bracket) => {
            write_closing(out, bracket)?;
            Ok(nodes)
        }
    }
}

/// Writes all items from the top.
pub(crate) fn write_all<W: Words>(
    lists: &mut TextLists,
    trail: &mut Trail,
    words: &mut W,
    names: &Names,
    out: &mut Vec<u8>,
    nodes: u32,
) -> Result<(), NoMemory>
    requires sound { W.sound words.old }
    requires holds { Holds W.had W.leads trail.old.kept trail.old.binds words.old }
    requires leads { Each (Leads (W.knows words.old) (W.leads words.old)) (stack lists.old.items.items) }
    requires tame { Tame trail.old.binds trail.old.kept (W.own words.old) (W.addresses words.old) }
    ensures between { W.later words.old words.new }
    ensures loaded { OnOk result (KeepsLoads W.sound W.had W.leads W.later W.gave trail.old.kept trail.old.binds words.old
        trail.new.kept trail.new.binds words.new) }
    ensures binds { trail.new.binds ≡ trail.old.binds }
    ensures reads { trail.new.reads.items ≡ trail.old.reads.items }
    ensures writes { OnOk result (Says (W.own words.new) trail.new.kept
        (λ m. WritesAll trail.old.binds m names.now nodes (stack lists.old.items.items) out.old.items out.new.items)) }
    ensures stops { OnErr result (Stops W.sound W.had W.leads W.later W.gave W.own trail.old.kept trail.old.binds words.old words.new
        (λ m. WritesSome trail.old.binds m names.now nodes (stack lists.old.items.items) out.old.items out.new.items)) }
    ensures tame { OnOk result (Tame trail.new.binds trail.new.kept (W.own words.new) (W.addresses words.new)) }
    ensures appended { Appends out.old.items out.new.items }
{
    let mut left = nodes;
    'items: loop {
        let Some(item) = lists.items.pop() else {
            return Ok(());
        };
        left = write_item(lists, trail, words, names, out, left, item)?;
    }
}
