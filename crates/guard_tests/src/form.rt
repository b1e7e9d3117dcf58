//! What the tests of a guard ask.
ghost use Rattle.std.specs.Prelude.{◌≡◌};
ghost use Rattle.heap_words.specs.Cells.{decoded};
ghost use Rattle.guard_tests.specs.Forms.{form_of, operand_of, truth, word_is, place_is, look_is, opposite};

use crate::equality::Tested;
use fcp_model::CompareOp;
use heap_words::{Cell, ExprStep, TestKind, decode};
use ro_unify::Look;

/// What is asked of one value.
#[derive(Clone, Copy, Debug, PartialEq, Eq)]
pub enum ValueKind {
    Integer,
    String,
    Constant,
    List,
    Tuple,
    Known,
    Unknown,
}

/// What a test asks: nothing, a kind of value, that two terms are the same or not, or how two numbers compare.
#[derive(Clone, Copy, Debug, PartialEq, Eq)]
pub enum Form {
    Always,
    OfValue(ValueKind),
    Same,
    NotSame,
    Order(CompareOp),
}

/// The word of the empty list.
const NIL: u64 = 6;

/// What a kind of test asks.
pub(crate) fn asked(kind: TestKind) -> Form
    ensures { result ≡ form_of kind }
{
    match kind {
        TestKind::True => Form::Always,
        TestKind::Integer => Form::OfValue(ValueKind::Integer),
        TestKind::String => Form::OfValue(ValueKind::String),
        TestKind::Constant => Form::OfValue(ValueKind::Constant),
        TestKind::List => Form::OfValue(ValueKind::List),
        TestKind::Tuple => Form::OfValue(ValueKind::Tuple),
        TestKind::Known => Form::OfValue(ValueKind::Known),
        TestKind::Unknown => Form::OfValue(ValueKind::Unknown),
        TestKind::Same => Form::Same,
        TestKind::NotSame => Form::NotSame,
        TestKind::Less => Form::Order(CompareOp::Less),
        TestKind::AtMost => Form::Order(CompareOp::AtMost),
        TestKind::Greater => Form::Order(CompareOp::Greater),
        TestKind::AtLeast => Form::Order(CompareOp::AtLeast),
        TestKind::Equal => Form::Order(CompareOp::Equal),
        TestKind::NotEqual => Form::Order(CompareOp::NotEqual),
    }
}

/// The word of the one operand that steps push. Any other steps are no term, and count as the empty list.
pub(crate) fn operand_word(steps: &[ExprStep]) -> u64
    ensures { result ≡ operand_of steps.now }
{
    match steps {
        [ExprStep::Push(word)] => *word,
        _ => NIL,
    }
}

/// The answer for a yes or a no.
pub(crate) fn decided(yes: bool) -> Tested
    ensures { result ≡ truth yes }
{
    if yes { Tested::Holds } else { Tested::Not }
}

/// Whether a word that is no place is of a kind.
fn is_of_kind(kind: ValueKind, word: u64) -> bool
    ensures { result ≡ word_is kind (decoded word) }
{
    match kind {
        ValueKind::Integer => matches!(decode(word), Some(Cell::Small(_) | Cell::Wide(_, _))),
        ValueKind::String => matches!(decode(word), Some(Cell::Str(_))),
        ValueKind::Constant => {
            matches!(
                decode(word),
                Some(Cell::Small(_) | Cell::Wide(_, _) | Cell::Str(_) | Cell::Nil)
            )
        }
        ValueKind::List => matches!(decode(word), Some(Cell::Cons(_))),
        ValueKind::Tuple => matches!(decode(word), Some(Cell::Tuple(_))),
        ValueKind::Known => true,
        ValueKind::Unknown => false,
    }
}

/// The answer for an unbound place.
fn place_answer(kind: ValueKind) -> Tested
    ensures { result ≡ place_is kind }
{
    match kind {
        ValueKind::Unknown => Tested::Holds,
        _ => Tested::Wait,
    }
}

/// The answer for a value.
pub(crate) fn kind_answer(kind: ValueKind, look: Look) -> Tested
    ensures { result ≡ look_is kind look }
{
    match look {
        Look::Writable(_) => place_answer(kind),
        Look::ReadOnly(_) => place_answer(kind),
        Look::Solid(word) => decided(is_of_kind(kind, word)),
    }
}

/// The other answer. A wait stays a wait.
pub(crate) fn opposed(answer: Tested) -> Tested
    ensures { opposite result ≡ answer }
{
    match answer {
        Tested::Holds => Tested::Not,
        Tested::Not => Tested::Holds,
        Tested::Wait => Tested::Wait,
    }
}
