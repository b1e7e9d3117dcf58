//! Words of the store: cells, what generic code asks of words that it loads, the trail of a try, and a plain heap.
#![tactic(auto)]

mod cell;
mod heap;
mod pieces;
mod steps;
#[cfg(test)]
mod tests;
mod trail;
mod word_table;
mod words;

pub use cell::{Cell, Stand, decode, encode, is_final};
pub use heap::PlainHeap;
pub use pieces::{Piece, Seen};
pub use steps::{ExprStep, TestKind};
pub use trail::Trail;
pub use words::{OWN, Words};
