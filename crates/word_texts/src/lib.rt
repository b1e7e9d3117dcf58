//! The texts of values that stand in words, over any words that can be loaded.
#![tactic(auto)]

mod items;
mod leaf;
mod turns;
mod values;
mod writing;

pub use items::TextLists;
pub use leaf::place_in;
pub use values::value_text;
