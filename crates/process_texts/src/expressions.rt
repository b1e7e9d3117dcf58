//! The text of an expression.
ghost use Rattle.std.specs.Prelude.{◌≡◌, ◌+◌, ◌<◌, ◌++◌, ◌∷◌, OnOk};
ghost use Rattle.fcp_model.specs.ReportText.{operator_text};
ghost use Rattle.heap_words.specs.Trails.{KeepsLoads, Says};
ghost use Rattle.ro_unify.specs.Occurs.{stack, Each};
ghost use Rattle.stored_expressions.specs.Listing.{operation_of};
ghost use Rattle.entry_lines.specs.Reading.{ReadsStore};
ghost use Rattle.process_texts.specs.Pieces.{operation_items, next_items, AddsOperand, ItemLeads, AddsPieces, TakesPiece, items_left};
ghost use Rattle.process_texts.specs.Texts.{AddsExpression};

use crate::items::{Item, ProcessLists, push_item};
use crate::reading::{push_value, word_at};
use fcp_model::spelling::push_bytes;
use fcp_model::{ArithOp, Names, NoMemory};
use heap_words::{Trail, Words};
use stored_expressions::operation;
use word_texts::TextLists;

/// Puts an operator after a text, with a space on each side.
fn push_operator(out: &mut Vec<u8>, op: ArithOp) -> Result<(), NoMemory>
    ensures { OnOk result (out.new.items ≡ out.old.items ++ operator_text op) }
{
    match op {
        ArithOp::Add => push_bytes(out, b" + "),
        ArithOp::Sub => push_bytes(out, b" - "),
        ArithOp::Mul => push_bytes(out, b" * "),
        ArithOp::Div => push_bytes(out, b" / "),
        ArithOp::Mod => push_bytes(out, b" mod "),
    }
}

/// Puts an operator with the two operands behind an address on the items, the left operand on top.
fn push_operation<W: Words>(
    items: &mut Vec<Item>,
    trail: &mut Trail,
    words: &mut W,
    op: ArithOp,
    at: u32,
) -> Result<(), NoMemory>
    requires reads { ReadsStore W.sound W.had W.leads W.own W.addresses trail.old.kept trail.old.binds words.old }
    requires known { (W.knows words.old (at + 1)) × (W.knows words.old (at + 2)) }
    ensures between { W.later words.old words.new }
    ensures loaded { OnOk result (KeepsLoads W.sound W.had W.leads W.later W.gave trail.old.kept trail.old.binds words.old
        trail.new.kept trail.new.binds words.new) }
    ensures binds { trail.new.binds ≡ trail.old.binds }
    ensures items { OnOk result (Says (W.own words.new) trail.new.kept
        (λ m. stack items.new.items ≡ operation_items m (op, at) ++ stack items.old.items)) }
    ensures leads { OnOk result (Each (ItemLeads (W.leads words.old)) (stack items.old.items)
        → Each (ItemLeads (W.leads words.new)) (stack items.new.items)) }
{
    let right = trail.word(words, at + 2)?;
    let left = trail.word(words, at + 1)?;
    push_item(items, Item::Operand(right))?;
    push_item(items, Item::Operator(op))?;
    push_item(items, Item::Operand(left))?;
    Ok(())
}

/// Puts the value of an operand after a text, or the parenthesis of an operation, of which the pieces come next.
fn push_operand<W: Words>(
    texts: &mut TextLists,
    items: &mut Vec<Item>,
    trail: &mut Trail,
    words: &mut W,
    names: &Names,
    out: &mut Vec<u8>,
    word: u64,
) -> Result<(), NoMemory>
    requires reads { ReadsStore W.sound W.had W.leads W.own W.addresses trail.old.kept trail.old.binds words.old }
    requires leads { W.leads words.old word }
    ensures between { W.later words.old words.new }
    ensures loaded { OnOk result (KeepsLoads W.sound W.had W.leads W.later W.gave trail.old.kept trail.old.binds words.old
        trail.new.kept trail.new.binds words.new) }
    ensures binds { trail.new.binds ≡ trail.old.binds }
    ensures items { OnOk result (Says (W.own words.new) trail.new.kept
        (λ m. stack items.new.items ≡ next_items m (operation_of m word) ++ stack items.old.items)) }
    ensures leads { OnOk result (Each (ItemLeads (W.leads words.old)) (stack items.old.items)
        → Each (ItemLeads (W.leads words.new)) (stack items.new.items)) }
    ensures text { OnOk result (AddsOperand trail.new.kept names.now word out.old.items out.new.items) }
{
    match operation(trail, words, word)? {
        None => {
            push_value(texts, trail, words, names, out, word)?;
            Ok(())
        }
        Some((op, at)) => {
            push_bytes(out, b"(")?;
            push_item(items, Item::Close)?;
            push_operation(items, trail, words, op, at)?;
            Ok(())
        }
    }
}

/// Puts a piece after a text, or the parenthesis of an operation, of which the pieces come next.
fn push_piece<W: Words>(
    texts: &mut TextLists,
    items: &mut Vec<Item>,
    trail: &mut Trail,
    words: &mut W,
    names: &Names,
    out: &mut Vec<u8>,
    item: Item,
) -> Result<(), NoMemory>
    requires reads { ReadsStore W.sound W.had W.leads W.own W.addresses trail.old.kept trail.old.binds words.old }
    requires leads { ItemLeads (W.leads words.old) item }
    ensures between { W.later words.old words.new }
    ensures loaded { OnOk result (KeepsLoads W.sound W.had W.leads W.later W.gave trail.old.kept trail.old.binds words.old
        trail.new.kept trail.new.binds words.new) }
    ensures binds { trail.new.binds ≡ trail.old.binds }
    ensures leads { OnOk result (Each (ItemLeads (W.leads words.old)) (stack items.old.items)
        → Each (ItemLeads (W.leads words.new)) (stack items.new.items)) }
    ensures text { OnOk result (TakesPiece trail.new.kept names.now item (stack items.old.items) out.old.items (stack items.new.items)
        out.new.items) }
    ensures less { OnOk result (items_left (W.addresses words.new) trail.new.binds trail.new.kept (W.own words.new) (stack items.new.items)
        < items_left (W.addresses words.old) trail.old.binds trail.old.kept (W.own words.old) (item ∷ stack items.old.items)) }
{
    match item {
        Item::Operand(word) => {
            push_operand(texts, items, trail, words, names, out, word)?;
            Ok(())
        }
        Item::Operator(op) => {
            push_operator(out, op)?;
            Ok(())
        }
        Item::Close => {
            push_bytes(out, b")")?;
            Ok(())
        }
    }
}

/// Puts the pieces on the items after a text, from the top.
fn push_pieces<W: Words>(
    texts: &mut TextLists,
    items: &mut Vec<Item>,
    trail: &mut Trail,
    words: &mut W,
    names: &Names,
    out: &mut Vec<u8>,
) -> Result<(), NoMemory>
    requires reads { ReadsStore W.sound W.had W.leads W.own W.addresses trail.old.kept trail.old.binds words.old }
    requires leads { Each (ItemLeads (W.leads words.old)) (stack items.old.items) }
    ensures between { W.later words.old words.new }
    ensures loaded { OnOk result (KeepsLoads W.sound W.had W.leads W.later W.gave trail.old.kept trail.old.binds words.old
        trail.new.kept trail.new.binds words.new) }
    ensures binds { trail.new.binds ≡ trail.old.binds }
    ensures text { OnOk result (AddsPieces trail.new.kept names.now (stack items.old.items) out.old.items out.new.items) }
{
    'pieces: loop {
        let Some(item) = items.pop() else {
            return Ok(());
        };
        push_piece(texts, items, trail, words, names, out, item)?;
    }
}

/// Puts the expression of the word at a known address after a text.
pub(crate) fn push_expression<W: Words>(
    lists: &mut ProcessLists,
    trail: &mut Trail,
    words: &mut W,
    names: &Names,
    out: &mut Vec<u8>,
    addr: u32,
) -> Result<(), NoMemory>
    requires reads { ReadsStore W.sound W.had W.leads W.own W.addresses trail.old.kept trail.old.binds words.old }
    requires known { W.knows words.old addr }
    ensures between { W.later words.old words.new }
    ensures loaded { OnOk result (KeepsLoads W.sound W.had W.leads W.later W.gave trail.old.kept trail.old.binds words.old
        trail.new.kept trail.new.binds words.new) }
    ensures binds { trail.new.binds ≡ trail.old.binds }
    ensures text { OnOk result (AddsExpression trail.new.kept names.now addr out.old.items out.new.items) }
{
    let word = word_at(trail, words, addr)?;
    match operation(trail, words, word)? {
        None => {
            push_value(&mut lists.texts, trail, words, names, out, word)?;
            Ok(())
        }
        Some((op, at)) => {
            lists.items.clear();
            push_operation(&mut lists.items, trail, words, op, at)?;
            push_pieces(&mut lists.texts, &mut lists.items, trail, words, names, out)?;
            Ok(())
        }
    }
}
