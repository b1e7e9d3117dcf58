//! Reading and writing over any reader and any writer.
ghost use Rattle.logix_edge.specs.Shelves.{IsWithin};
ghost use Rattle.logix_edge.specs.Streams.{ReadsAll, WritesPiece};

use crate::{Fetched, Put};
use std::alloc::Global;
use std::io::{Read, Write};

/// How many bytes one read asks for.
pub(crate) const BUFFER: usize = 4096;

/// The bytes that a reader has left, unless they are more than `limit`. Each error of the reader is a fault, and the
/// bytes that came before it are lost. No more is read than one buffer above the limit.
pub fn read_up_to<R: Read>(alloc: Global, from: &mut R, limit: u64) -> Fetched
    ensures within { IsWithin limit result }
    ensures bytes { ReadsAll (R.remaining from.old) limit result }
{
    let mut bytes = Vec::new(alloc);
    let mut buffer = [0u8; BUFFER];
    loop {
        let Ok(count) = from.read(&mut buffer) else {
            return Fetched::Failed;
        };
        // A read may give fewer bytes than it was asked for. Only one that gives none is the end.
        if count == 0 {
            return Fetched::Bytes(bytes);
        }
        if count as u64 > limit - bytes.len() as u64 {
            return Fetched::TooLong;
        }
        if bytes.extend_from_slice(&buffer[..count]).is_err() {
            return Fetched::NoMemory;
        }
    }
}

/// Writes a piece, by as many writes as it takes. Each error of the writer, and each write that takes nothing, is a fault.
pub fn write_whole<W: Write>(to: &mut W, piece: &[u8]) -> Put
    ensures { WritesPiece (W.contents to.old) (W.contents to.new) piece.now result }
{
    let mut rest = piece;
    while !rest.is_empty() {
        match to.write(rest) {
            Ok(count) if count > 0 => rest = &rest[count..],
            _ => return Put::Failed,
        }
    }
    Put::Done
}
