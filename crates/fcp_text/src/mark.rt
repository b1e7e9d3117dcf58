//! The numbers of the marks.

/// `(`
pub const ROUND_OPEN: u8 = 0;

/// `)`
pub const ROUND_CLOSE: u8 = 1;

/// `[`
pub const SQUARE_OPEN: u8 = 2;

/// `]`
pub const SQUARE_CLOSE: u8 = 3;

/// `{`
pub const CURLY_OPEN: u8 = 4;

/// `}`
pub const CURLY_CLOSE: u8 = 5;

/// `|`
pub const BAR: u8 = 6;

/// `,`
pub const COMMA: u8 = 7;

/// `.`
pub const DOT: u8 = 8;

/// `?`
pub const QUESTION: u8 = 9;

/// `:-`
pub const IF: u8 = 10;

/// `:=`
pub const ASSIGN: u8 = 11;

/// `=`
pub const EQUALS: u8 = 12;

/// `==`
pub const SAME: u8 = 13;

/// `\==`
pub const NOT_SAME: u8 = 14;

/// `<`
pub const LESS: u8 = 15;

/// `=<`
pub const AT_MOST: u8 = 16;

/// `>`
pub const GREATER: u8 = 17;

/// `>=`
pub const AT_LEAST: u8 = 18;

/// `=:=`
pub const EQUAL: u8 = 19;

/// `=\=`
pub const NOT_EQUAL: u8 = 20;

/// `+`
pub const PLUS: u8 = 21;

/// `-`
pub const MINUS: u8 = 22;

/// `*`
pub const TIMES: u8 = 23;

/// `/`
pub const DIVIDE: u8 = 24;

/// `:`
pub const COLON: u8 = 25;

/// `#`
pub const HASH: u8 = 26;
