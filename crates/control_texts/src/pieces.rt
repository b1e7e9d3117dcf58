//! The words of a text and its `;`.
ghost use Rattle.std.specs.Prelude.{◌≡◌, ◌==◌, ◌||◌, not};
ghost use Rattle.std.specs.List.{position, prefix_len};
ghost use Rattle.control_texts.specs.Pieces.{is_of_word};
ghost use Rattle.control_texts.specs.Cuts.{piece_len, IsNext};

/// Where the next word or `;` begins, and how many bytes it has. `None` where spaces alone are left.
pub fn next_piece(text: &[u8]) -> Option<(usize, usize)>
    ensures { IsNext text.now result }
{
    let start = first_of_piece(text)?;
    Some((start, piece_len(&text[start..])))
}

/// Where the first byte stands that is no space.
fn first_of_piece(text: &[u8]) -> Option<usize>
    ensures { result ≡ position (λ b. not (b == 32)) text.now }
{
    text.iter().position(|byte| *byte != b' ')
}

/// Where the first space or `;` stands.
fn first_behind_word(text: &[u8]) -> Option<usize>
    ensures { result ≡ position (λ b. b == 32 || b == 59) text.now }
{
    text.iter().position(|byte| *byte == b' ' || *byte == b';')
}

/// How many bytes stand before the first space or `;`.
fn word_len(text: &[u8]) -> usize
    ensures { result ≡ prefix_len is_of_word text.now }
{
    first_behind_word(text).unwrap_or(text.len())
}

/// How many bytes the word or `;` has with which the text begins.
fn piece_len(text: &[u8]) -> usize
    ensures { result ≡ piece_len text.now }
{
    match text {
        [b';', ..] => 1,
        _ => word_len(text),
    }
}
