//! Laws of tokens.
ghost use Rattle.fcp_text.specs.TokenLaws.{TokensStandInOrder, TokensAreFew, TokensAreSpelledWell};

/// The tokens of a text stand in its order: each has a byte or more, none begins before the end of the one before it, and
/// all lie within the text.
pub fn tokens_stand_in_order()
    ensures { TokensStandInOrder }
{}

/// A text has at most as many tokens as bytes.
pub fn tokens_are_few()
    ensures { TokensAreFew }
{}

/// The bytes of a name or a variable are ASCII, and the string of a quoted token is UTF-8.
pub fn tokens_are_spelled_well()
    ensures { TokensAreSpelledWell }
{}
