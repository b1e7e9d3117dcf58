ghost use Rattle.std.specs.Prelude.{◌≡◌, ◌++◌, codes, map, drop};
ghost use Rattle.fcp_model.specs.declared.term.Term.{Tuple};
ghost use Rattle.fcp_text.specs.SourceTerms.{term_text, rest_text, terms_text, string_in, called_name};
ghost use Rattle.fcp_text.specs.Buffering.{IsBuffered};

use crate::buffer::{Buffer, put};
use crate::write_bytes::{write_number, write_read_only, write_string, write_variable};
use fcp_model::{Names, Sym, Term};
use logix_edge::{Sink, SinkFailed};

/// Puts a term.
#[cycle(terms)]
pub(crate) fn write_term<K: Sink>(
    names: &Names,
    term: &Term,
    buffer: &mut Buffer,
    sink: &mut K,
) -> Result<(), SinkFailed>
    ensures { IsBuffered (K.written sink.old) (K.written sink.new) buffer.old buffer.new (K.faults sink.old) (K.faults sink.new)
        (term_text names.now term.now) result }
{
    match term {
        Term::Int(number) => write_number(*number, buffer, sink),
        Term::Str(string) => write_string(names, *string, buffer, sink),
        Term::Nil => put(buffer, sink, b"[]"),
        Term::Cons(head, tail) => {
            put(buffer, sink, b"[")?;
            write_term(names, head.get(), buffer, sink)?;
            write_rest(names, tail.get(), buffer, sink)
        }
        Term::Tuple(parts) => write_tuple(names, parts.as_slice(), buffer, sink),
        Term::Var(variable) => write_variable(*variable, buffer, sink),
        Term::Ro(variable) => write_read_only(*variable, buffer, sink),
    }
}

/// Puts a list's rest up to its `]`, in a loop, since a list may be long.
#[cycle(terms)]
fn write_rest<K: Sink>(
    names: &Names,
    list: &Term,
    buffer: &mut Buffer,
    sink: &mut K,
) -> Result<(), SinkFailed>
    ensures { IsBuffered (K.written sink.old) (K.written sink.new) buffer.old buffer.new (K.faults sink.old) (K.faults sink.new)
        (rest_text names.now list.now) result }
{
    let mut rest = list;
    while let Term::Cons(head, tail) = rest {
        put(buffer, sink, b",")?;
        write_term(names, head.get(), buffer, sink)?;
        rest = tail.get();
    }
    let Term::Nil = rest else {
        put(buffer, sink, b"|")?;
        write_term(names, rest, buffer, sink)?;
        return put(buffer, sink, b"]");
    };
    put(buffer, sink, b"]")
}

/// Puts a tuple: as a call where its first part is a string and more follow, and else in braces.
#[cycle(terms)]
fn write_tuple<K: Sink>(
    names: &Names,
    parts: &[Term],
    buffer: &mut Buffer,
    sink: &mut K,
) -> Result<(), SinkFailed>
    ensures { IsBuffered (K.written sink.old) (K.written sink.new) buffer.old buffer.new (K.faults sink.old) (K.faults sink.new)
        (term_text names.now (Tuple parts.now)) result }
{
    if let Some(name) = called_name(parts) {
        write_string(names, name, buffer, sink)?;
        put(buffer, sink, b"(")?;
        write_parts(names, parts, 1, buffer, sink)?;
        return put(buffer, sink, b")");
    }
    put(buffer, sink, b"{")?;
    write_parts(names, parts, 0, buffer, sink)?;
    put(buffer, sink, b"}")
}

/// Puts the parts from a position on, with commas between them.
#[cycle(terms)]
pub(crate) fn write_parts<K: Sink>(
    names: &Names,
    parts: &[Term],
    from: usize,
    buffer: &mut Buffer,
    sink: &mut K,
) -> Result<(), SinkFailed>
    ensures { IsBuffered (K.written sink.old) (K.written sink.new) buffer.old buffer.new (K.faults sink.old) (K.faults sink.new)
        (terms_text names.now (drop from parts.now)) result }
{
    if from >= parts.len() {
        return Ok(());
    }
    write_term(names, &parts[from], buffer, sink)?;
    for at in from + 1..parts.len() {
        put(buffer, sink, b",")?;
        write_term(names, &parts[at], buffer, sink)?;
    }
    Ok(())
}

/// The string that a tuple's first part is, where more parts follow.
fn called_name(parts: &[Term]) -> Option<Sym>
    ensures { result ≡ called_name parts.now }
{
    if parts.len() < 2 {
        return None;
    }
    string_in(&parts[0])
}

/// The string that a term is, if it is one.
fn string_in(term: &Term) -> Option<Sym>
    ensures { result ≡ string_in term.now }
{
    match term {
        Term::Str(string) => Some(*string),
        Term::Int(_) | Term::Nil | Term::Cons(_, _) | Term::Tuple(_) => None,
        Term::Var(_) | Term::Ro(_) => None,
    }
}
