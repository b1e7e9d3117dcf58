ghost use Rattle.std.specs.Prelude.{codes, map, drop, []};
ghost use Rattle.fcp_text.specs.SourceTerms.{parted};
ghost use Rattle.fcp_text.specs.SourceClauses.{tail_text, clause_text, clauses_text, export_text, name_line, exports_line, module_text};
ghost use Rattle.fcp_text.specs.Buffering.{IsBuffered};

use crate::buffer::{Buffer, put};
use crate::write_bytes::{write_count, write_string};
use crate::write_items::{write_items, write_named};
use fcp_model::{Clause, Export, Item, Module, Names, Seq, Sym};
use logix_edge::{Sink, SinkFailed};

/// Puts a clause, with no line feed.
pub(crate) fn write_clause<K: Sink>(
    names: &Names,
    clause: &Clause,
    buffer: &mut Buffer,
    sink: &mut K,
) -> Result<(), SinkFailed>
    ensures { IsBuffered (K.written sink.old) (K.written sink.new) buffer.old buffer.new (K.faults sink.old) (K.faults sink.new)
        (clause_text names.now clause.now) result }
{
    write_named(names, clause.head, clause.args.as_slice(), buffer, sink)?;
    write_tail(
        names,
        clause.guard.as_slice(),
        clause.body.as_slice(),
        buffer,
        sink,
    )?;
    put(buffer, sink, b".")
}

/// Puts what stands behind a clause's head.
fn write_tail<K: Sink>(
    names: &Names,
    guard: &[Item],
    body: &[Item],
    buffer: &mut Buffer,
    sink: &mut K,
) -> Result<(), SinkFailed>
    ensures { IsBuffered (K.written sink.old) (K.written sink.new) buffer.old buffer.new (K.faults sink.old) (K.faults sink.new)
        (tail_text names.now guard.now body.now) result }
{
    if guard.is_empty() {
        return write_body(names, body, buffer, sink);
    }
    put(buffer, sink, b" :- ")?;
    write_items(names, guard, 0, buffer, sink)?;
    put(buffer, sink, b" | ")?;
    write_items(names, body, 0, buffer, sink)
}

/// Puts the body of a clause with no guard; an empty one has no sign.
fn write_body<K: Sink>(
    names: &Names,
    body: &[Item],
    buffer: &mut Buffer,
    sink: &mut K,
) -> Result<(), SinkFailed>
    ensures { IsBuffered (K.written sink.old) (K.written sink.new) buffer.old buffer.new (K.faults sink.old) (K.faults sink.new)
        (tail_text names.now [] body.now) result }
{
    if body.is_empty() {
        return Ok(());
    }
    put(buffer, sink, b" :- ")?;
    write_items(names, body, 0, buffer, sink)
}

/// Puts a module.
pub(crate) fn write_module<K: Sink>(
    names: &Names,
    module: &Module,
    buffer: &mut Buffer,
    sink: &mut K,
) -> Result<(), SinkFailed>
    ensures { IsBuffered (K.written sink.old) (K.written sink.new) buffer.old buffer.new (K.faults sink.old) (K.faults sink.new)
        (module_text names.now «module».now) result }
{
    write_name_line(names, module.name, buffer, sink)?;
    write_exports_line(names, &module.exports, buffer, sink)?;
    write_clauses(names, module.clauses.as_slice(), buffer, sink)
}

/// Puts the line of the module's name, where it has one.
fn write_name_line<K: Sink>(
    names: &Names,
    name: Option<Sym>,
    buffer: &mut Buffer,
    sink: &mut K,
) -> Result<(), SinkFailed>
    ensures { IsBuffered (K.written sink.old) (K.written sink.new) buffer.old buffer.new (K.faults sink.old) (K.faults sink.new)
        (name_line names.now name) result }
{
    let Some(name) = name else {
        return Ok(());
    };
    put(buffer, sink, b"-module(")?;
    write_string(names, name, buffer, sink)?;
    put(buffer, sink, b").\n")
}

/// Puts the line of the exports, where they are listed.
fn write_exports_line<K: Sink>(
    names: &Names,
    exports: &Option<Seq<Export>>,
    buffer: &mut Buffer,
    sink: &mut K,
) -> Result<(), SinkFailed>
    ensures { IsBuffered (K.written sink.old) (K.written sink.new) buffer.old buffer.new (K.faults sink.old) (K.faults sink.new)
        (exports_line names.now exports.now) result }
{
    let Some(exports) = exports else {
        return Ok(());
    };
    put(buffer, sink, b"-export([")?;
    write_exports(names, exports.as_slice(), 0, buffer, sink)?;
    put(buffer, sink, b"]).\n")
}

/// Puts the exports from a position on, with commas between them.
fn write_exports<K: Sink>(
    names: &Names,
    exports: &[Export],
    from: usize,
    buffer: &mut Buffer,
    sink: &mut K,
) -> Result<(), SinkFailed>
    ensures { IsBuffered (K.written sink.old) (K.written sink.new) buffer.old buffer.new (K.faults sink.old) (K.faults sink.new)
        (parted (codes ",") (map (export_text names.now) (drop from exports.now))) result }
{
    if from >= exports.len() {
        return Ok(());
    }
    write_export(names, &exports[from], buffer, sink)?;
    for at in from + 1..exports.len() {
        put(buffer, sink, b",")?;
        write_export(names, &exports[at], buffer, sink)?;
    }
    Ok(())
}

/// Puts one export: its name and its number of arguments.
fn write_export<K: Sink>(
    names: &Names,
    export: &Export,
    buffer: &mut Buffer,
    sink: &mut K,
) -> Result<(), SinkFailed>
    ensures { IsBuffered (K.written sink.old) (K.written sink.new) buffer.old buffer.new (K.faults sink.old) (K.faults sink.new)
        (export_text names.now export.now) result }
{
    write_string(names, export.name, buffer, sink)?;
    put(buffer, sink, b"/")?;
    write_count(export.arity, buffer, sink)
}

/// Puts clauses, each as a line.
fn write_clauses<K: Sink>(
    names: &Names,
    clauses: &[Clause],
    buffer: &mut Buffer,
    sink: &mut K,
) -> Result<(), SinkFailed>
    ensures { IsBuffered (K.written sink.old) (K.written sink.new) buffer.old buffer.new (K.faults sink.old) (K.faults sink.new)
        (clauses_text names.now clauses.now) result }
{
    for clause in clauses {
        write_clause(names, clause, buffer, sink)?;
        put(buffer, sink, b"\n")?;
    }
    Ok(())
}
