ghost use Rattle.std.specs.Prelude.{◌≡◌, ◌≤◌, ◌↔◌, Some, [], IfOk, IsTrue, vec_len, vec_capacity};
ghost use Rattle.logix_edge.specs.Causes.{counted};
ghost use Rattle.logix_edge.specs.Sinks.{IsPut};

use crate::calls::Calls;
use crate::{Put, Sink};
use fcp_model::{NoMemory, Seq};
use std::alloc::Global;

/// A sink in memory, with room for so many bytes. Chosen calls of it fail.
#[derive(Debug, Drop)]
pub struct MemorySink {
    bytes: Vec<u8>,
    room: usize,
    calls: Calls,
    faults: u64,
    ghost within: { vec_len bytes ≤ room },
    ghost reserved: { room ≤ vec_capacity bytes },
}

impl MemorySink {
    ghost use Rattle.logix_edge.specs.MemorySinks.{sink_bytes, sink_room, sink_calls, sink_fails, sink_faults};

    /// An empty sink. It takes its room, in bytes, at once, so that no put asks for memory.
    /// The puts whose numbers are in `fails` fail; the first put is number 1.
    pub fn make(alloc: Global, room: usize, fails: Seq<u32>) -> Result<MemorySink, NoMemory>
        ensures empty { IfOk result (λ sink. sink_bytes sink ≡ []) }
        ensures room { IfOk result (λ sink. sink_room sink ≡ room) }
        ensures fails { IfOk result (λ sink. sink_fails sink ≡ fails) }
        ensures unused { IfOk result (λ sink. sink_calls sink ≡ 0) }
        ensures sound { IfOk result (λ sink. sink_faults sink ≡ 0) }
    {
        match Vec::with_capacity(alloc, room) {
            Ok(bytes) => Ok(MemorySink {
                bytes,
                room,
                calls: Calls::new(fails),
                faults: 0,
            }),
            Err(_) => Err(NoMemory),
        }
    }

    /// The bytes that it has taken, oldest first.
    pub fn bytes(&self) -> &[u8]
        ensures { result.now ≡ sink_bytes self.now }
    {
        self.bytes.as_slice()
    }
}

impl Sink for MemorySink {
    ghost use Rattle.logix_edge.specs.MemorySinks.{sink_bytes, sink_room, sink_calls, sink_fails, sink_faults, put_fails};

    ghost written = { λ sink. Some (sink_bytes sink) };

    ghost faults = { sink_faults };

    fn put(&mut self, piece: &[u8]) -> Put
        ensures put { IsPut (Some (sink_bytes self.old)) (Some (sink_bytes self.new))
            (sink_faults self.old) (sink_faults self.new) piece.now result }

        // Just the calls that were chosen, and those for which there is no room, fail, and write nothing.
        ensures fails { (result ≡ Put.Failed) ↔ IsTrue (put_fails self.old piece.now) }
        ensures nothing { result ≡ Put.Failed → sink_bytes self.new ≡ sink_bytes self.old }
        ensures fault { result ≡ Put.Failed → sink_faults self.new ≡ counted (sink_faults self.old) }

        ensures calls { sink_calls self.new ≡ counted (sink_calls self.old) }
        ensures same_fails { sink_fails self.new ≡ sink_fails self.old }
        ensures same_room { sink_room self.new ≡ sink_room self.old }
    {
        let fails = self.calls.next_fails();
        if fails || piece.len() > self.room - self.bytes.len() {
            self.faults = self.faults.saturating_add(1);
            return Put::Failed;
        }
        // The room was taken when the sink was made.
        self.bytes.extend_from_slice(piece).unwrap();
        Put::Done
    }
}
