ghost use Rattle.fcp_text.specs.SourceTerms.{term_text};
ghost use Rattle.fcp_text.specs.SourceClauses.{clause_text, module_text};
ghost use Rattle.fcp_text.specs.Writing.{IsWritten};

use crate::buffer::{Buffer, flush};
use crate::{write_clauses, write_terms};
use fcp_model::{Clause, Module, Names, Term};
use logix_edge::{Sink, SinkFailed};

/// Appends the text of a term. There are no spaces in it but those within strings. A string whose number the list lacks is
/// the empty one. After `SinkFailed` only a front of the text was appended.
pub fn write_term<K: Sink>(names: &Names, term: &Term, sink: &mut K) -> Result<(), SinkFailed>
    ensures { IsWritten (K.written sink.old) (K.written sink.new) (K.faults sink.old) (K.faults sink.new)
        (term_text names.now term.now) result }
{
    let mut buffer = Buffer::new();
    write_terms::write_term(names, term, &mut buffer, sink)?;
    flush(&mut buffer, sink)
}

/// Appends the text of a clause, with no line feed: `head.`, `head :- body.` or `head :- guard | body.`. A string whose
/// number the list lacks is the empty one. After `SinkFailed` only a front of the text was appended.
pub fn write_clause<K: Sink>(names: &Names, clause: &Clause, sink: &mut K) -> Result<(), SinkFailed>
    ensures { IsWritten (K.written sink.old) (K.written sink.new) (K.faults sink.old) (K.faults sink.new)
        (clause_text names.now clause.now) result }
{
    let mut buffer = Buffer::new();
    write_clauses::write_clause(names, clause, &mut buffer, sink)?;
    flush(&mut buffer, sink)
}

/// Appends the canonical text of a module: a line for its name, where it has one, a line for the exports, where it lists
/// them, and a line for each clause. Each line ends with a line feed, and a module with none of these has the empty text.
/// A string whose number the list lacks is the empty one. After `SinkFailed` only a front of the text was appended.
pub fn write_module<K: Sink>(names: &Names, module: &Module, sink: &mut K) -> Result<(), SinkFailed>
    ensures { IsWritten (K.written sink.old) (K.written sink.new) (K.faults sink.old) (K.faults sink.new)
        (module_text names.now «module».now) result }
{
    let mut buffer = Buffer::new();
    write_clauses::write_module(names, module, &mut buffer, sink)?;
    flush(&mut buffer, sink)
}
