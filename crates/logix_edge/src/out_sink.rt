ghost use Rattle.std.specs.Prelude.{◌≡◌, None};

use crate::streams::write_whole;
use crate::{Put, Sink};
use std::io;

/// Standard output. It does not tell what it has written. Each error of the system, and each write that takes nothing,
/// is a fault.
#[derive(Drop)]
pub struct OutSink<'a, R: Print> {
    rt: &'a R,
    faults: u64,
}

impl<'a, R: Print> OutSink<'a, R> {
    ghost use Rattle.logix_edge.specs.System.{out_faults};

    /// The standard output of the runtime.
    pub fn make(rt: &'a R) -> OutSink<'a, R>
        ensures sound { out_faults result ≡ 0 }
    {
        OutSink { rt, faults: 0 }
    }
}

impl<'a, R: Print> Sink for OutSink<'a, R> {
    ghost use Rattle.logix_edge.specs.System.{out_faults};

    ghost written = { λ _. None };

    ghost faults = { out_faults };

    fn put(&mut self, piece: &[u8]) -> Put {
        let put = write_whole(&mut io::writer(self.rt), piece);
        if let Put::Failed = put {
            self.faults = self.faults.saturating_add(1);
        }
        put
    }
}
