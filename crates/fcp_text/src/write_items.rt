ghost use Rattle.std.specs.Prelude.{codes, drop, ◌++◌};
ghost use Rattle.fcp_text.specs.SourceTerms.{term_text};
ghost use Rattle.fcp_text.specs.SourceExpressions.{expr_text};
ghost use Rattle.fcp_text.specs.SourceItems.{comparison_text, call_text, arguments_text, named_text, item_text, items_text};
ghost use Rattle.fcp_text.specs.Buffering.{IsBuffered};

use crate::buffer::{Buffer, put};
use crate::write_bytes::write_string;
use crate::write_expressions::{comparison_sign, write_expression};
use crate::write_terms::{write_parts, write_term};
use fcp_model::{Call, CompareOp, Expr, Item, Names, Sym, Term};
use logix_edge::{Sink, SinkFailed};

/// Puts a name with its arguments.
pub(crate) fn write_named<K: Sink>(
    names: &Names,
    name: Sym,
    arguments: &[Term],
    buffer: &mut Buffer,
    sink: &mut K,
) -> Result<(), SinkFailed>
    ensures { IsBuffered (K.written sink.old) (K.written sink.new) buffer.old buffer.new (K.faults sink.old) (K.faults sink.new)
        (named_text names.now name arguments.now) result }
{
    write_string(names, name, buffer, sink)?;
    write_arguments(names, arguments, buffer, sink)
}

/// Puts arguments in parentheses, and where there are none, nothing.
fn write_arguments<K: Sink>(
    names: &Names,
    arguments: &[Term],
    buffer: &mut Buffer,
    sink: &mut K,
) -> Result<(), SinkFailed>
    ensures { IsBuffered (K.written sink.old) (K.written sink.new) buffer.old buffer.new (K.faults sink.old) (K.faults sink.new)
        (arguments_text names.now arguments.now) result }
{
    if arguments.is_empty() {
        return Ok(());
    }
    put(buffer, sink, b"(")?;
    write_parts(names, arguments, 0, buffer, sink)?;
    put(buffer, sink, b")")
}

/// Puts two terms with a sign between them.
fn write_between<K: Sink>(
    names: &Names,
    left: &Term,
    sign: &[u8],
    right: &Term,
    buffer: &mut Buffer,
    sink: &mut K,
) -> Result<(), SinkFailed>
    ensures { IsBuffered (K.written sink.old) (K.written sink.new) buffer.old buffer.new (K.faults sink.old) (K.faults sink.new)
        (term_text names.now left.now ++ (sign.now ++ term_text names.now right.now)) result }
{
    write_term(names, left, buffer, sink)?;
    put(buffer, sink, sign)?;
    write_term(names, right, buffer, sink)
}

/// Puts an assignment.
fn write_assignment<K: Sink>(
    names: &Names,
    left: &Term,
    right: &Expr,
    buffer: &mut Buffer,
    sink: &mut K,
) -> Result<(), SinkFailed>
    ensures { IsBuffered (K.written sink.old) (K.written sink.new) buffer.old buffer.new (K.faults sink.old) (K.faults sink.new)
        (term_text names.now left.now ++ (codes " := " ++ expr_text names.now right.now)) result }
{
    write_term(names, left, buffer, sink)?;
    put(buffer, sink, b" := ")?;
    write_expression(names, right, buffer, sink)
}

/// Puts a comparison of two expressions.
fn write_comparison<K: Sink>(
    names: &Names,
    comparison: CompareOp,
    left: &Expr,
    right: &Expr,
    buffer: &mut Buffer,
    sink: &mut K,
) -> Result<(), SinkFailed>
    ensures { IsBuffered (K.written sink.old) (K.written sink.new) buffer.old buffer.new (K.faults sink.old) (K.faults sink.new)
        (expr_text names.now left.now ++ (comparison_text comparison ++ expr_text names.now right.now)) result }
{
    write_expression(names, left, buffer, sink)?;
    put(buffer, sink, comparison_sign(comparison))?;
    write_expression(names, right, buffer, sink)
}

/// Puts an item.
fn write_item<K: Sink>(
    names: &Names,
    item: &Item,
    buffer: &mut Buffer,
    sink: &mut K,
) -> Result<(), SinkFailed>
    ensures { IsBuffered (K.written sink.old) (K.written sink.new) buffer.old buffer.new (K.faults sink.old) (K.faults sink.new)
        (item_text names.now item.now) result }
{
    write_call(names, &item.call, buffer, sink)
}

/// Puts what an item says.
fn write_call<K: Sink>(
    names: &Names,
    call: &Call,
    buffer: &mut Buffer,
    sink: &mut K,
) -> Result<(), SinkFailed>
    ensures { IsBuffered (K.written sink.old) (K.written sink.new) buffer.old buffer.new (K.faults sink.old) (K.faults sink.new)
        (call_text names.now call.now) result }
{
    match call {
        Call::User { name, args } => write_named(names, *name, args.as_slice(), buffer, sink),
        Call::Unify(left, right) => write_between(names, left, b" = ", right, buffer, sink),
        Call::Assign(left, right) => write_assignment(names, left, right, buffer, sink),
        Call::Same(left, right) => write_between(names, left, b" == ", right, buffer, sink),
        Call::NotSame(left, right) => write_between(names, left, b" \\== ", right, buffer, sink),
        Call::Compare(comparison, left, right) => write_comparison(
            names,
            *comparison,
            left,
            right,
            buffer,
            sink,
        ),
    }
}

/// Puts the items from a position on, with a comma and a space between them.
pub(crate) fn write_items<K: Sink>(
    names: &Names,
    items: &[Item],
    from: usize,
    buffer: &mut Buffer,
    sink: &mut K,
) -> Result<(), SinkFailed>
    ensures { IsBuffered (K.written sink.old) (K.written sink.new) buffer.old buffer.new (K.faults sink.old) (K.faults sink.new)
        (items_text names.now (drop from items.now)) result }
{
    if from >= items.len() {
        return Ok(());
    }
    write_item(names, &items[from], buffer, sink)?;
    for at in from + 1..items.len() {
        put(buffer, sink, b", ")?;
        write_item(names, &items[at], buffer, sink)?;
    }
    Ok(())
}
