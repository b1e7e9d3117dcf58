//! The machine: what is kept between trials, so that a trial takes no memory but where a list grows.
use crate::places::Places;
use guard_tests::TestLists;
use heap_words::{ExprStep, Trail};
use ro_unify::WorkLists;
use stored_expressions::ExpressionLists;
use try_desk::Desk;

/// What a trial has at hand: the desk of a try; the trail of what it bound, read and kept; the places that the tries before it
/// read; the bindings that a commit hands over; how many of the pieces were there before the last terms were put; how many variables
/// the clause in hand has; and the work lists of unification, of tests and of stored expressions.
#[derive(Drop)]
pub struct Machine {
    pub desk: Desk,
    pub trail: Trail,
    pub waits: Places,
    pub binds: Vec<(u32, u64)>,
    pub(crate) base: u32,
    pub(crate) vars: u8,
    pub(crate) work: WorkLists,
    pub(crate) tests: TestLists,
    pub(crate) numbers: ExpressionLists,
    pub(crate) left: Vec<ExprStep>,
    pub(crate) right: Vec<ExprStep>,
}

/// What a slot's value is, where it is to be opened: its parts were taken, it is another value, or no store stands so.
pub(crate) enum Opened {
    Taken,
    Other,
    Nowhere,
}

/// A try goes on, or it was left.
pub(crate) enum Turn {
    On,
    Left,
}
