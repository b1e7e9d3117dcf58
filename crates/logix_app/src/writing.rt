ghost use Rattle.fcp_text.specs.SourceClauses.{module_text};
ghost use Rattle.logix_edge.specs.Sinks.{IsPut};

use fcp_model::{Loaded, Names};
use fcp_text::write_module;
use logix_edge::{Put, Sink};

/// The most bytes of a piece.
const MOST_PIECE_BYTES: usize = 65536;

/// Puts a text in pieces of 65,536 bytes, of which the last may be shorter. A put that fails is the last.
pub fn put_all<K: Sink>(sink: &mut K, text: &[u8]) -> Put
    ensures { IsPut (K.written sink.old) (K.written sink.new) (K.faults sink.old) (K.faults sink.new) text.now result }
{
    let mut rest = text;
    while !rest.is_empty() {
        let count = rest.len().min(MOST_PIECE_BYTES);
        if let Put::Failed = sink.put(&rest[..count]) {
            return Put::Failed;
        }
        rest = &rest[count..];
    }
    Put::Done
}

/// Puts the canonical text of a module, whose strings these are. It is never whole in memory.
pub fn put_module<K: Sink>(names: &Names, loaded: &Loaded, sink: &mut K) -> Put
    ensures { IsPut (K.written sink.old) (K.written sink.new) (K.faults sink.old) (K.faults sink.new)
        (module_text names.now loaded.now) result }
{
    match write_module(names, loaded.module(), sink) {
        Ok(()) => Put::Done,
        Err(_) => Put::Failed,
    }
}
