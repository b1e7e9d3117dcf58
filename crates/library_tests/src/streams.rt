//! Tests of `logix_edge`: readers and writers that take and give little at a time, or fail.
use logix_edge::{Fetched, Put, read_up_to, write_whole};
use std::io::{self, ErrorKind, Read, Write};

/// A reader of six bytes that gives one byte, and then two at a time. The read of this number, from 1, fails.
#[derive(Drop)]
struct Slow {
    given: usize,
    reads: usize,
    fails: usize,
}

const SIX: [u8; 6] = *b"abcdef";

impl Read for Slow {
    fn read(&mut self, buf: &mut [u8]) -> io::Result<usize> {
        self.reads = self.reads.saturating_add(1);
        if self.reads == self.fails {
            return Err(io::Error::from(ErrorKind::Other));
        }
        let most = if self.given == 0 { 1 } else { 2 };
        let left = SIX.len().saturating_sub(self.given);
        let count = most.min(left).min(buf.len());
        for (to, byte) in buf.iter_mut().zip(SIX.iter().skip(self.given)).take(count) {
            *to = *byte;
        }
        self.given = self.given.saturating_add(count);
        Ok(count)
    }
}

/// A writer that takes one byte at a time. The write of this number, from 1, fails.
#[derive(Drop)]
struct Narrow {
    taken: usize,
    fails: usize,
}

impl Write for Narrow {
    fn write(&mut self, buf: &[u8]) -> io::Result<usize> {
        if self.taken.saturating_add(1) == self.fails {
            return Err(io::Error::from(ErrorKind::Other));
        }
        let count = buf.len().min(1);
        self.taken = self.taken.saturating_add(count);
        Ok(count)
    }

    fn flush(&mut self) -> io::Result<()> {
        Ok(())
    }
}

fn slow_reader(fails: usize) -> Slow {
    Slow {
        given: 0,
        reads: 0,
        fails,
    }
}

#[test]
fn short_reads_are_joined(rt: HostRuntime) {
    match read_up_to(rt.alloc(), &mut slow_reader(0), 6) {
        Fetched::Bytes(bytes) => assert_eq!(rt; bytes.as_slice(), SIX.as_slice()),
        _ => panic!(rt; "no bytes"),
    }
    let cut = read_up_to(rt.alloc(), &mut slow_reader(0), 5);
    assert!(rt; matches!(cut, Fetched::TooLong));
}

#[test]
fn a_read_that_fails_in_mid_stream_is_a_fault(rt: HostRuntime) {
    let failed = read_up_to(rt.alloc(), &mut slow_reader(3), 6);
    assert!(rt; matches!(failed, Fetched::Failed));
}

#[test]
fn short_writes_are_joined_and_a_failed_one_is_a_fault(rt: HostRuntime) {
    let mut whole = Narrow { taken: 0, fails: 0 };
    assert_eq!(rt; write_whole(&mut whole, b"abc"), Put::Done);
    assert_eq!(rt; whole.taken, 3);
    let mut front = Narrow { taken: 0, fails: 2 };
    assert_eq!(rt; write_whole(&mut front, b"abc"), Put::Failed);
    assert_eq!(rt; front.taken, 1);
}
