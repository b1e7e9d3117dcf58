ghost use Rattle.std.specs.Prelude.{decimal, ◌++◌, codes};
ghost use Rattle.std.specs.Fmt.{signed_decimal};
ghost use Rattle.fcp_model.specs.Spelling.{doubled, string_text, name_at};
ghost use Rattle.std.specs.List.{position};
ghost use Rattle.std.specs.Prelude.{◌≡◌};
ghost use Rattle.fcp_text.specs.Buffering.{IsBuffered};
ghost use Rattle.fcp_text.specs.Quotes.{is_quote};

use crate::buffer::{Buffer, put};
use fcp_model::spelling::{Decimal, is_name};
use fcp_model::{Names, Sym};
use logix_edge::{Sink, SinkFailed};

/// Puts a number that is not negative, in decimal.
pub(crate) fn write_count<K: Sink>(
    count: u32,
    buffer: &mut Buffer,
    sink: &mut K,
) -> Result<(), SinkFailed>
    ensures { IsBuffered (K.written sink.old) (K.written sink.new) buffer.old buffer.new (K.faults sink.old) (K.faults sink.new)
        (decimal count) result }
{
    put(buffer, sink, Decimal::of(i64::from(count)).as_bytes())
}

/// Puts a number in decimal, with `-` where it is negative.
pub(crate) fn write_number<K: Sink>(
    number: i64,
    buffer: &mut Buffer,
    sink: &mut K,
) -> Result<(), SinkFailed>
    ensures { IsBuffered (K.written sink.old) (K.written sink.new) buffer.old buffer.new (K.faults sink.old) (K.faults sink.new)
        (signed_decimal number) result }
{
    put(buffer, sink, Decimal::of(number).as_bytes())
}

/// Puts a writable occurrence of a variable.
pub(crate) fn write_variable<K: Sink>(
    variable: u8,
    buffer: &mut Buffer,
    sink: &mut K,
) -> Result<(), SinkFailed>
    ensures { IsBuffered (K.written sink.old) (K.written sink.new) buffer.old buffer.new (K.faults sink.old) (K.faults sink.new)
        (codes "V" ++ decimal variable) result }
{
    put(buffer, sink, b"V")?;
    write_count(variable as u32, buffer, sink)
}

/// Puts a read-only occurrence of a variable.
pub(crate) fn write_read_only<K: Sink>(
    variable: u8,
    buffer: &mut Buffer,
    sink: &mut K,
) -> Result<(), SinkFailed>
    ensures { IsBuffered (K.written sink.old) (K.written sink.new) buffer.old buffer.new (K.faults sink.old) (K.faults sink.new)
        (codes "V" ++ decimal variable ++ codes "?") result }
{
    put(buffer, sink, b"V")?;
    write_count(variable as u32, buffer, sink)?;
    put(buffer, sink, b"?")
}

/// Puts a string's number's string: as it is where it has the form of a name, and else between quotes. A number that the
/// list lacks has the empty string.
pub(crate) fn write_string<K: Sink>(
    names: &Names,
    string: Sym,
    buffer: &mut Buffer,
    sink: &mut K,
) -> Result<(), SinkFailed>
    ensures { IsBuffered (K.written sink.old) (K.written sink.new) buffer.old buffer.new (K.faults sink.old) (K.faults sink.new)
        (string_text (name_at names.now string.0)) result }
{
    let text = names.get(string).unwrap_or("");
    let bytes = text.as_bytes();
    if is_name(text) {
        return put(buffer, sink, bytes);
    }
    put(buffer, sink, b"'")?;
    write_doubled(bytes, buffer, sink)?;
    put(buffer, sink, b"'")
}

/// Puts bytes with each quote twice.
fn write_doubled<K: Sink>(bytes: &[u8], buffer: &mut Buffer, sink: &mut K) -> Result<(), SinkFailed>
    ensures { IsBuffered (K.written sink.old) (K.written sink.new) buffer.old buffer.new (K.faults sink.old) (K.faults sink.new)
        (doubled bytes.now) result }
{
    let mut rest = bytes;
    while let Some(at) = first_quote(rest) {
        put(buffer, sink, &rest[..at + 1])?;
        put(buffer, sink, b"'")?;
        rest = &rest[at + 1..];
    }
    put(buffer, sink, rest)
}

/// The position of the first quote.
fn first_quote(bytes: &[u8]) -> Option<usize>
    ensures { result ≡ position is_quote bytes.now }
{
    bytes.iter().position(|byte| *byte == b'\'')
}
