//! What one item comes to.
ghost use Rattle.std.specs.Prelude.{◌≡◌, ℕ, ◌+◌, ◌-◌, ◌<◌, ◌≤◌, ◌++◌, [], ◌∷◌, IfOk, IfSome, OnOk, OnErr, codes};
ghost use Rattle.heap_words.specs.Cells.{encoded, decoded};
ghost use Rattle.heap_words.specs.Trails.{Holds, KeepsLoads, Says};
ghost use Rattle.ro_unify.specs.Walks.{Tame};
ghost use Rattle.ro_unify.specs.Occurs.{stack, Each, count_of};
ghost use Rattle.fcp_model.specs.Spelling.{string_text, name_at};
ghost use Rattle.word_texts.specs.Turns.{
  closing,
  whole_look,
  tail_in,
  tail_look,
  string_in,
  string_look,
  count_at,
  part_items,
  pair_items,
  Functor,
  Opened,
  Leads,
};

use crate::items::{Bracket, Item, TextLists, push_item};
use fcp_model::spelling::{push_bytes, push_string};
use fcp_model::{Names, NoMemory, Sym};
use heap_words::{Cell, Trail, Words, decode};
use ro_unify::{Look, Whole, deref};

/// The rest of a list.
#[derive(Clone, Copy, Debug, PartialEq, Eq)]
pub(crate) enum Tail {
    End,
    /// A further pair, whose words are at the address.
    Pair(u32),
    Other,
}

/// The rest of a list, by its word.
fn tail_of(word: u64) -> Tail
    ensures { result ≡ tail_in (decoded word) }
{
    match decode(word) {
        Some(Cell::Nil) => Tail::End,
        Some(Cell::Cons(at)) => Tail::Pair(at),
        _ => Tail::Other,
    }
}

/// The rest of a list, by its value.
pub(crate) fn tail_at(look: Look) -> Tail
    ensures { result ≡ tail_look look }
{
    match look {
        Look::Writable(_) => Tail::Other,
        Look::ReadOnly(_) => Tail::Other,
        Look::Solid(word) => tail_of(word),
    }
}

/// The string that a word is.
fn string_of(word: u64) -> Option<Sym>
    ensures { result ≡ string_in (decoded word) }
{
    match decode(word) {
        Some(Cell::Str(name)) => Some(name),
        _ => None,
    }
}

/// The string that a value is.
fn string_at(look: Look) -> Option<Sym>
    ensures { result ≡ string_look look }
{
    match look {
        Look::Writable(_) => None,
        Look::ReadOnly(_) => None,
        Look::Solid(word) => string_of(word),
    }
}

/// What a word is.
fn whole_of(word: u64) -> Whole
    ensures { result ≡ whole_look (Look.Solid word) }
{
    match decode(word) {
        Some(Cell::Cons(at)) => Whole::Pair(at),
        Some(Cell::Tuple(at)) => Whole::Tuple(at),
        _ => Whole::Atom,
    }
}

/// What a value is.
pub(crate) fn whole_at(look: Look) -> Whole
    ensures { result ≡ whole_look look }
{
    match look {
        Look::Writable(_) => Whole::Atom,
        Look::ReadOnly(_) => Whole::Atom,
        Look::Solid(word) => whole_of(word),
    }
}

/// How many parts come after a word that says their number; 0 after any other word.
fn count_in(word: u64) -> u32
    ensures { result ≡ count_of (decoded word) }
{
    match decode(word) {
        Some(Cell::Raw(count)) => if count < 66 { count } else { 2 },
        _ => 0,
    }
}

/// Puts the two parts of a pair on the others, the first one on top.
pub(crate) fn push_pair<W: Words>(
    items: &mut Vec<Item>,
    trail: &mut Trail,
    words: &mut W,
    at: u32,
) -> Result<(), NoMemory>
    requires sound { W.sound words.old }
    requires holds { Holds W.had W.leads trail.old.kept trail.old.binds words.old }
    requires known { (W.knows words.old at) × (W.knows words.old (at + 1)) }
    ensures between { W.later words.old words.new }
    ensures loaded { OnOk result (KeepsLoads W.sound W.had W.leads W.later W.gave trail.old.kept trail.old.binds words.old
        trail.new.kept trail.new.binds words.new) }
    ensures binds { trail.new.binds ≡ trail.old.binds }
    ensures reads { trail.new.reads.items ≡ trail.old.reads.items }
    ensures items { OnOk result (Says (W.own words.new) trail.new.kept
        (λ m. stack items.new.items ≡ pair_items m at ++ stack items.old.items)) }
    ensures leads { OnOk result (Each (Leads (W.knows words.old) (W.leads words.old)) (stack items.old.items)
        → Each (Leads (W.knows words.new) (W.leads words.new)) (stack items.new.items)) }
{
    let second = trail.word(words, at + 1)?;
    push_item(items, Item::Rest(second))?;
    let first = trail.word(words, at)?;
    push_item(items, Item::Term(first))?;
    Ok(())
}

/// Puts so many parts, whose words come after an address, on the others, the first one on top.
pub(crate) fn push_parts<W: Words>(
    items: &mut Vec<Item>,
    trail: &mut Trail,
    words: &mut W,
    at: u32,
    count: u32,
) -> Result<(), NoMemory>
    requires sound { W.sound words.old }
    requires holds { Holds W.had W.leads trail.old.kept trail.old.binds words.old }
    requires known { (b : ℕ) → at < b → b ≤ at + count → W.knows words.old b }
    ensures between { W.later words.old words.new }
    ensures loaded { OnOk result (KeepsLoads W.sound W.had W.leads W.later W.gave trail.old.kept trail.old.binds words.old
        trail.new.kept trail.new.binds words.new) }
    ensures binds { trail.new.binds ≡ trail.old.binds }
    ensures reads { trail.new.reads.items ≡ trail.old.reads.items }
    ensures items { OnOk result (Says (W.own words.new) trail.new.kept
        (λ m. stack items.new.items ≡ part_items m at count ++ stack items.old.items)) }
    ensures leads { OnOk result (Each (Leads (W.knows words.old) (W.leads words.old)) (stack items.old.items)
        → Each (Leads (W.knows words.new) (W.leads words.new)) (stack items.new.items)) }
{
    if count == 0 {
        return Ok(());
    }
    let first = trail.word(words, at + 1)?;
    push_item(items, Item::Parts(at + 1, count - 1))?;
    push_item(items, Item::Term(first))?;
    Ok(())
}

/// Puts so many parts with a closing bracket after them on the others.
fn push_closed<W: Words>(
    items: &mut Vec<Item>,
    trail: &mut Trail,
    words: &mut W,
    at: u32,
    count: u32,
    bracket: Bracket,
) -> Result<(), NoMemory>
    requires sound { W.sound words.old }
    requires holds { Holds W.had W.leads trail.old.kept trail.old.binds words.old }
    requires known { (b : ℕ) → at < b → b ≤ at + count → W.knows words.old b }
    ensures between { W.later words.old words.new }
    ensures loaded { OnOk result (KeepsLoads W.sound W.had W.leads W.later W.gave trail.old.kept trail.old.binds words.old
        trail.new.kept trail.new.binds words.new) }
    ensures binds { trail.new.binds ≡ trail.old.binds }
    ensures reads { trail.new.reads.items ≡ trail.old.reads.items }
    ensures items { OnOk result (Says (W.own words.new) trail.new.kept
        (λ m. stack items.new.items ≡ (part_items m at count ++ Item.Close bracket ∷ []) ++ stack items.old.items)) }
    ensures leads { OnOk result (Each (Leads (W.knows words.old) (W.leads words.old)) (stack items.old.items)
        → Each (Leads (W.knows words.new) (W.leads words.new)) (stack items.new.items)) }
{
    push_item(items, Item::Close(bracket))?;
    push_parts(items, trail, words, at, count)?;
    Ok(())
}

/// The string that is written before a parenthesis, where so many parts come after an address and so many nodes are left.
fn functor<W: Words>(
    trail: &mut Trail,
    words: &mut W,
    at: u32,
    count: u32,
    left: u32,
) -> Result<Option<Sym>, NoMemory>
    requires sound { W.sound words.old }
    requires holds { Holds W.had W.leads trail.old.kept trail.old.binds words.old }
    requires known { (b : ℕ) → at < b → b ≤ at + count → W.knows words.old b }
    requires tame { Tame trail.old.binds trail.old.kept (W.own words.old) (W.addresses words.old) }
    ensures between { W.later words.old words.new }
    ensures loaded { OnOk result (KeepsLoads W.sound W.had W.leads W.later W.gave trail.old.kept trail.old.binds words.old
        trail.new.kept trail.new.binds words.new) }
    ensures binds { trail.new.binds ≡ trail.old.binds }
    ensures reads { trail.new.reads.items ≡ trail.old.reads.items }
    ensures functor { IfOk result (λ s. Says (W.own words.new) trail.new.kept (λ m. Functor trail.old.binds m left count at s)) }
    ensures room { IfOk result (λ s. IfSome s (λ _. (0 < left) × (1 < count))) }
{
    if left == 0 || count < 2 {
        return Ok(None);
    }
    let first = trail.word(words, at + 1)?;
    let look = deref(trail, words, first)?;
    Ok(string_at(look))
}

/// Puts a string with an opening parenthesis after a text, whole or not at all: it is gathered in `leaf` first.
fn write_functor(
    leaf: &mut Vec<u8>,
    names: &Names,
    out: &mut Vec<u8>,
    name: Sym,
) -> Result<(), NoMemory>
    ensures ok { OnOk result (out.new.items ≡ out.old.items ++ (string_text (name_at names.now name.0) ++ codes "(")) }
    ensures err { OnErr result (out.new.items ≡ out.old.items) }
{
    leaf.clear();
    push_string(leaf, names.text_or_empty(name))?;
    push_bytes(leaf, b"(")?;
    push_bytes(out, leaf.as_slice())?;
    Ok(())
}

/// The number of parts of the tuple at an address, and the string that is written before a parenthesis.
fn tuple_head<W: Words>(
    trail: &mut Trail,
    words: &mut W,
    at: u32,
    left: u32,
) -> Result<(u32, Option<Sym>), NoMemory>
    requires sound { W.sound words.old }
    requires holds { Holds W.had W.leads trail.old.kept trail.old.binds words.old }
    requires leads { W.leads words.old (encoded (Cell.Tuple at)) }
    requires tame { Tame trail.old.binds trail.old.kept (W.own words.old) (W.addresses words.old) }
    ensures between { W.later words.old words.new }
    ensures loaded { OnOk result (KeepsLoads W.sound W.had W.leads W.later W.gave trail.old.kept trail.old.binds words.old
        trail.new.kept trail.new.binds words.new) }
    ensures binds { trail.new.binds ≡ trail.old.binds }
    ensures reads { trail.new.reads.items ≡ trail.old.reads.items }
    ensures count { IfOk result (λ h. Says (W.own words.new) trail.new.kept (λ m. count_at m at ≡ h.0)) }
    ensures functor { IfOk result (λ h. Says (W.own words.new) trail.new.kept (λ m. Functor trail.old.binds m left h.0 at h.1)) }
    ensures room { IfOk result (λ h. IfSome h.1 (λ _. (0 < left) × (1 < h.0))) }
    ensures known { IfOk result (λ h. (b : ℕ) → at < b → b ≤ at + h.0 → W.knows words.new b) }
{
    let word = trail.word(words, at)?;
    let count = count_in(word);
    let name = functor(trail, words, at, count, left)?;
    Ok((count, name))
}

/// Writes a tuple's first part and a parenthesis, and puts its other parts on the others.
fn write_round<W: Words>(
    lists: &mut TextLists,
    trail: &mut Trail,
    words: &mut W,
    names: &Names,
    out: &mut Vec<u8>,
    name: Sym,
    at: u32,
    count: u32,
) -> Result<(), NoMemory>
    requires sound { W.sound words.old }
    requires holds { Holds W.had W.leads trail.old.kept trail.old.binds words.old }
    requires known { (b : ℕ) → at < b → b ≤ at + count → W.knows words.old b }
    requires more { 1 < count }
    ensures between { W.later words.old words.new }
    ensures loaded { OnOk result (KeepsLoads W.sound W.had W.leads W.later W.gave trail.old.kept trail.old.binds words.old
        trail.new.kept trail.new.binds words.new) }
    ensures binds { trail.new.binds ≡ trail.old.binds }
    ensures reads { trail.new.reads.items ≡ trail.old.reads.items }
    ensures text { OnOk result (out.new.items ≡ out.old.items ++ (string_text (name_at names.now name.0) ++ codes "(")) }
    ensures items { OnOk result (Says (W.own words.new) trail.new.kept (λ m. stack lists.new.items.items
        ≡ (part_items m (at + 1) (count - 1) ++ Item.Close Bracket.Round ∷ []) ++ stack lists.old.items.items)) }
    ensures leads { OnOk result (Each (Leads (W.knows words.old) (W.leads words.old)) (stack lists.old.items.items)
        → Each (Leads (W.knows words.new) (W.leads words.new)) (stack lists.new.items.items)) }
    ensures err { OnErr result (out.new.items ≡ out.old.items) }
{
    push_closed(
        &mut lists.items,
        trail,
        words,
        at + 1,
        count - 1,
        Bracket::Round,
    )?;
    write_functor(&mut lists.leaf, names, out, name)?;
    Ok(())
}

/// Writes a brace, and puts a tuple's parts on the others.
fn write_curly<W: Words>(
    items: &mut Vec<Item>,
    trail: &mut Trail,
    words: &mut W,
    out: &mut Vec<u8>,
    at: u32,
    count: u32,
) -> Result<(), NoMemory>
    requires sound { W.sound words.old }
    requires holds { Holds W.had W.leads trail.old.kept trail.old.binds words.old }
    requires known { (b : ℕ) → at < b → b ≤ at + count → W.knows words.old b }
    ensures between { W.later words.old words.new }
    ensures loaded { OnOk result (KeepsLoads W.sound W.had W.leads W.later W.gave trail.old.kept trail.old.binds words.old
        trail.new.kept trail.new.binds words.new) }
    ensures binds { trail.new.binds ≡ trail.old.binds }
    ensures reads { trail.new.reads.items ≡ trail.old.reads.items }
    ensures text { OnOk result (out.new.items ≡ out.old.items ++ codes "{") }
    ensures items { OnOk result (Says (W.own words.new) trail.new.kept
        (λ m. stack items.new.items ≡ (part_items m at count ++ Item.Close Bracket.Curly ∷ []) ++ stack items.old.items)) }
    ensures leads { OnOk result (Each (Leads (W.knows words.old) (W.leads words.old)) (stack items.old.items)
        → Each (Leads (W.knows words.new) (W.leads words.new)) (stack items.new.items)) }
    ensures err { OnErr result (out.new.items ≡ out.old.items) }
{
    push_closed(items, trail, words, at, count, Bracket::Curly)?;
    push_bytes(out, b"{")?;
    Ok(())
}

/// Writes what comes before the parts of the tuple at an address, for which a node was taken, and answers how many nodes are left.
pub(crate) fn write_tuple<W: Words>(
    lists: &mut TextLists,
    trail: &mut Trail,
    words: &mut W,
    names: &Names,
    out: &mut Vec<u8>,
    left: u32,
    at: u32,
) -> Result<u32, NoMemory>
    requires sound { W.sound words.old }
    requires holds { Holds W.had W.leads trail.old.kept trail.old.binds words.old }
    requires leads { W.leads words.old (encoded (Cell.Tuple at)) }
    requires tame { Tame trail.old.binds trail.old.kept (W.own words.old) (W.addresses words.old) }
    ensures between { W.later words.old words.new }
    ensures loaded { OnOk result (KeepsLoads W.sound W.had W.leads W.later W.gave trail.old.kept trail.old.binds words.old
        trail.new.kept trail.new.binds words.new) }
    ensures binds { trail.new.binds ≡ trail.old.binds }
    ensures reads { trail.new.reads.items ≡ trail.old.reads.items }
    ensures opened { IfOk result (λ j. Says (W.own words.new) trail.new.kept
        (λ m. Opened trail.old.binds m names.now left at (stack lists.old.items.items) out.old.items j (stack lists.new.items.items)
        out.new.items)) }
    ensures leads { OnOk result (Each (Leads (W.knows words.old) (W.leads words.old)) (stack lists.old.items.items)
        → Each (Leads (W.knows words.new) (W.leads words.new)) (stack lists.new.items.items)) }
    ensures err { OnErr result (out.new.items ≡ out.old.items) }
{
    let head = tuple_head(trail, words, at, left)?;
    match head.1 {
        Some(name) => {
            write_round(lists, trail, words, names, out, name, at, head.0)?;
            Ok(left - 1)
        }
        None => {
            write_curly(&mut lists.items, trail, words, out, at, head.0)?;
            Ok(left)
        }
    }
}
