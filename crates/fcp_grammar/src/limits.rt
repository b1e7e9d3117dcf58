//! How much a text of the grammar may have.

/// The most arguments of a string, and the most parts of a tuple in braces.
pub const MOST_ARGUMENTS: usize = 64;

/// The most different variables of a clause or a goal.
pub const MOST_VARIABLES: u8 = 250;

/// The most items of a guard, a body or a goal.
pub const MOST_ITEMS: usize = 256;

/// The most operators of an item, over both sides of its comparison.
pub const MOST_OPERATORS: u32 = 256;
