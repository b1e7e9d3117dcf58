ghost use Rattle.std.specs.Prelude.{◌≡◌, ◌≤◌, ◌+◌, nat_le, List, ℕ, [], ◌++◌, length, take};
ghost use Rattle.fcp_text.specs.Writing.{IsWritten};
ghost use Rattle.fcp_text.specs.Buffering.{IsBuffered};

use logix_edge::{Put, Sink, SinkFailed};
use std::marker::Model;

/// The most bytes that wait.
const CAPACITY: usize = 65_536;

/// Bytes that wait to be put to a sink, so that many small pieces are put as a large one. It takes no memory.
#[derive(Drop)]
pub(crate) struct Buffer {
    bytes: [u8; CAPACITY],
    len: usize,
}

impl Model for Buffer {
    ghost Value = { List ℕ };

    ghost view = { λ b. take b.len b.bytes };

    ghost invariant = { λ b. b.len ≤ 65536 };
}

impl Buffer {
    /// With nothing in it.
    pub(crate) fn new() -> Buffer
        ensures { result ≡ [] }
    {
        Buffer {
            bytes: [0; CAPACITY],
            len: 0,
        }
    }

    /// The bytes that wait, oldest first.
    fn as_slice(&self) -> &[u8]
        ensures { result.now ≡ self.now }
    {
        &self.bytes[..self.len]
    }

    /// Whether there is room for this many bytes more.
    fn has_room(&self, count: usize) -> bool
        ensures { result ≡ nat_le (length self.now + count) 65536 }
    {
        count <= CAPACITY - self.len
    }

    /// Lets a piece wait too.
    fn append(&mut self, piece: &[u8])
        requires { length self.old + length piece.now ≤ 65536 }
        ensures { self.new ≡ self.old ++ piece.now }
    {
        let end = self.len + piece.len();
        self.bytes[self.len..end].copy_from_slice(piece);
        self.len = end;
    }

    /// Forgets the bytes.
    fn clear(&mut self)
        ensures { self.new ≡ [] }
    {
        self.len = 0;
    }
}

/// Lets a piece wait, and where there is no room for it, puts first what waits. A piece that is longer than the buffer is put itself.
pub(crate) fn put<K: Sink>(
    buffer: &mut Buffer,
    sink: &mut K,
    piece: &[u8],
) -> Result<(), SinkFailed>
    ensures { IsBuffered (K.written sink.old) (K.written sink.new) buffer.old buffer.new (K.faults sink.old) (K.faults sink.new)
        piece.now result }
{
    if buffer.has_room(piece.len()) {
        buffer.append(piece);
        return Ok(());
    }
    flush(buffer, sink)?;
    if buffer.has_room(piece.len()) {
        buffer.append(piece);
        return Ok(());
    }
    put_whole(sink, piece)
}

/// Puts what waits. Then nothing waits.
pub(crate) fn flush<K: Sink>(buffer: &mut Buffer, sink: &mut K) -> Result<(), SinkFailed>
    ensures written { IsWritten (K.written sink.old) (K.written sink.new) (K.faults sink.old) (K.faults sink.new) buffer.old result }
    ensures empty { buffer.new ≡ [] }
{
    let flushed = put_whole(sink, buffer.as_slice());
    buffer.clear();
    flushed
}

/// Puts a piece to the sink, where it has any bytes.
fn put_whole<K: Sink>(sink: &mut K, piece: &[u8]) -> Result<(), SinkFailed>
    ensures { IsWritten (K.written sink.old) (K.written sink.new) (K.faults sink.old) (K.faults sink.new) piece.now result }
{
    if piece.is_empty() {
        return Ok(());
    }
    match sink.put(piece) {
        Put::Done => Ok(()),
        Put::Failed => Err(SinkFailed),
    }
}
