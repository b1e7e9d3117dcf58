//! Bytes of a text, and runs of bytes of a class.
ghost use Rattle.std.specs.Prelude.{◌≡◌, ◌≢◌, ◌<◌, ◌≤◌, length, slice_index, true};
ghost use Rattle.fcp_text.specs.Bytes as spec;

/// Bytes of which runs are looked for.
#[derive(Clone, Copy, Debug)]
pub enum Class {
    /// Of a name or a variable behind its first byte.
    Word,
    /// Of a number, but for its sign.
    Digit,
    /// Of a comment.
    Line,
}

fn is_in(class: Class, byte: u8) -> bool
    ensures { result ≡ spec.is_in class byte }
{
    match class {
        Class::Word => byte.is_ascii_alphanumeric() || byte == b'_',
        Class::Digit => byte.is_ascii_digit(),
        Class::Line => byte != b'\n',
    }
}

/// The byte at a place from 0, or 0 past the end.
pub fn byte_at(text: &[u8], at: usize) -> u8
    ensures value { result ≡ slice_index text.now at }
    ensures within { result ≢ 0 → at < length text.now }
{
    if at < text.len() { text[at] } else { 0 }
}

/// How many bytes of the class the text begins with.
pub fn leading(class: Class, text: &[u8]) -> usize
    ensures value { result ≡ spec.leading class text.now }
    ensures within { result ≤ length text.now }
    ensures some { 0 < length text.now → spec.is_in class (slice_index text.now 0) ≡ true → 0 < result }
{
    let mut end = 0;
    while end < text.len() && is_in(class, text[end]) {
        end += 1;
    }
    end
}
