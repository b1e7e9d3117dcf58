//! Reading terms, one terminal after another.
ghost use Rattle.std.specs.Prelude.{◌≡◌, IfOk};
ghost use Rattle.fcp_grammar.specs.Terms as spec;

use crate::build::{list, tuple};
use crate::limits::{MOST_ARGUMENTS, MOST_VARIABLES};
use crate::stack::Stack;
use crate::terminals::Terminal;
use fcp_model::{NoMemory, Seq, Sym, Term};
use std::alloc::Global;

/// An open bracket of a term: the place in bytes of the term's first token, and the parts that are complete, in order.
#[derive(Drop)]
pub enum Frame {
    /// Behind a string and its `(`, with the arguments.
    Call(u32, Sym, Seq<Term>),
    /// Behind a `[`, with the elements.
    List(u32, Seq<Term>),
    /// Behind the `|` of a list, with all of its elements.
    Rest(u32, Seq<Term>),
    /// Behind a `{`, with the parts.
    Braces(u32, Seq<Term>),
}

/// What was read last of a term, with the place in bytes of the first token of what it began.
#[derive(Drop)]
pub enum Phase {
    /// A term has to begin.
    Want,
    /// A `[`, behind which a `]` or a term may stand.
    Opened(u32),
    /// A string, which is a term and may have arguments.
    Named(u32, Sym),
    /// A string with its arguments, which is a term and may be a call.
    Called(u32, Sym, Seq<Term>),
    /// A variable, which is a term and may have a `?`.
    Variable(u32, u8),
    /// Any other complete term.
    Have(u32, Term),
}

/// How far a term is read: its open brackets from the inside, and what came last.
#[derive(Drop)]
pub struct TermAt {
    pub stack: Stack<Frame>,
    pub phase: Phase,
}

/// What a terminal is to a term.
#[derive(Drop)]
pub enum Told {
    /// The terminal goes on.
    Read(TermAt),
    /// The term has ended before the terminal.
    Whole(Phase),
    /// No term goes on with the terminal.
    Refused,
}

/// A term begins.
#[tactic(auto, unfolding(crate::specs::Terms::begin))]
fn begin(alloc: Global, stack: Stack<Frame>, terminal: Terminal) -> Result<Told, NoMemory>
    ensures { IfOk result (λ r. r ≡ spec.begin stack terminal) }
{
    let mut stack = stack;
    let phase = match terminal {
        Terminal::Int(number, at) => Phase::Have(at, Term::Int(number)),
        Terminal::Str(name, _, at) => Phase::Named(at, name),
        Terminal::Var(number, at) => Phase::Variable(at, number),
        Terminal::SquareOpen(at) => Phase::Opened(at),
        Terminal::CurlyOpen(at) => {
            stack.push(Frame::Braces(at, Seq::empty(alloc)))?;
            Phase::Want
        }
        _ => return Ok(Told::Refused),
    };
    Ok(Told::Read(TermAt { stack, phase }))
}

/// The term that was read last. Where none is complete it is `[]`, which no caller asks for.
#[tactic(auto, unfolding(crate::specs::Terms::term_of))]
pub fn term_of(phase: Phase) -> Result<Term, NoMemory>
    ensures { IfOk result (λ t. t ≡ spec.term_of phase) }
{
    match phase {
        Phase::Want | Phase::Opened(_) => Ok(Term::Nil),
        Phase::Named(_, name) => Ok(Term::Str(name)),
        Phase::Called(_, name, args) => tuple(name, args),
        Phase::Variable(_, number) => Ok(Term::Var(number)),
        Phase::Have(_, term) => Ok(term),
    }
}

/// The terminal behind a term that is a part of what the bracket holds.
#[tactic(auto, unfolding(crate::specs::Terms::in_frame))]
fn in_frame(
    alloc: Global,
    frame: Frame,
    stack: Stack<Frame>,
    term: Term,
    terminal: Terminal,
) -> Result<Told, NoMemory>
    ensures { IfOk result (λ r. r ≡ spec.in_frame frame stack term terminal) }
{
    let mut stack = stack;
    let phase = match frame {
        Frame::Call(at, name, done) => match terminal {
            Terminal::Comma => {
                stack.push(Frame::Call(at, name, done.with(term)?))?;
                Phase::Want
            }
            Terminal::RoundClose => Phase::Called(at, name, done.with(term)?),
            _ => return Ok(Told::Refused),
        },
        Frame::List(at, done) => match terminal {
            Terminal::Comma => {
                stack.push(Frame::List(at, done.with(term)?))?;
                Phase::Want
            }
            Terminal::Bar => {
                stack.push(Frame::Rest(at, done.with(term)?))?;
                Phase::Want
            }
            Terminal::SquareClose => Phase::Have(at, list(alloc, done.with(term)?, Term::Nil)?),
            _ => return Ok(Told::Refused),
        },
        Frame::Rest(at, done) => match terminal {
            Terminal::SquareClose => Phase::Have(at, list(alloc, done, term)?),
            _ => return Ok(Told::Refused),
        },
        Frame::Braces(at, done) => match terminal {
            Terminal::Comma => {
                stack.push(Frame::Braces(at, done.with(term)?))?;
                Phase::Want
            }
            Terminal::CurlyClose => Phase::Have(at, Term::Tuple(done.with(term)?)),
            _ => return Ok(Told::Refused),
        },
    };
    Ok(Told::Read(TermAt { stack, phase }))
}

/// The terminal behind a term.
#[tactic(auto, unfolding(crate::specs::Terms::behind))]
fn behind(
    alloc: Global,
    stack: Stack<Frame>,
    phase: Phase,
    terminal: Terminal,
) -> Result<Told, NoMemory>
    ensures { IfOk result (λ r. r ≡ spec.behind stack phase terminal) }
{
    let mut stack = stack;
    match stack.pop() {
        None => Ok(Told::Whole(phase)),
        Some(frame) => in_frame(alloc, frame, stack, term_of(phase)?, terminal),
    }
}

/// One more terminal of a term. `NoMemory` is the only error.
#[tactic(auto, unfolding(crate::specs::Terms::step_by))]
pub fn step(alloc: Global, at: TermAt, terminal: Terminal) -> Result<Told, NoMemory>
    ensures { IfOk result (λ r. r ≡ spec.step at terminal) }
{
    let TermAt { mut stack, phase } = at;
    match phase {
        Phase::Want => begin(alloc, stack, terminal),
        Phase::Opened(place) => match terminal {
            Terminal::SquareClose => Ok(Told::Read(TermAt {
                stack,
                phase: Phase::Have(place, Term::Nil),
            })),
            _ => {
                stack.push(Frame::List(place, Seq::empty(alloc)))?;
                begin(alloc, stack, terminal)
            }
        },
        Phase::Named(place, name) => match terminal {
            Terminal::RoundOpen(_) => {
                stack.push(Frame::Call(place, name, Seq::empty(alloc)))?;
                Ok(Told::Read(TermAt {
                    stack,
                    phase: Phase::Want,
                }))
            }
            _ => behind(alloc, stack, Phase::Named(place, name), terminal),
        },
        Phase::Variable(place, number) => match terminal {
            Terminal::Question => Ok(Told::Read(TermAt {
                stack,
                phase: Phase::Have(place, Term::Ro(number)),
            })),
            _ => behind(alloc, stack, Phase::Variable(place, number), terminal),
        },
        Phase::Called(place, name, args) => behind(
            alloc,
            stack,
            Phase::Called(place, name, args),
            terminal,
        ),
        Phase::Have(place, term) => behind(alloc, stack, Phase::Have(place, term), terminal),
    }
}

/// The place in bytes of the first token of what was read last, or 0 where a term has to begin.
pub fn place_of(phase: &Phase) -> u32
    ensures { result ≡ spec.place_of phase.now }
{
    match phase {
        Phase::Want => 0,
        Phase::Opened(place) => *place,
        Phase::Named(place, _) => *place,
        Phase::Called(place, _, _) => *place,
        Phase::Variable(place, _) => *place,
        Phase::Have(place, _) => *place,
    }
}

/// Nothing is read of a term.
pub fn start(alloc: Global) -> TermAt
    ensures { result ≡ spec.start }
{
    TermAt {
        stack: Stack::empty(alloc),
        phase: Phase::Want,
    }
}

/// Whether the next term in the bracket is one too many. `outside` says so of a term in no bracket.
#[tactic(auto, unfolding(crate::specs::Terms::full))]
fn full(outside: bool, stack: &Stack<Frame>) -> bool
    ensures { result ≡ spec.full outside stack.now }
{
    match stack.top() {
        None => outside,
        Some(frame) => match frame {
            Frame::Call(_, _, done) => done.len() >= MOST_ARGUMENTS,
            Frame::Braces(_, done) => done.len() >= MOST_ARGUMENTS,
            Frame::List(_, _) | Frame::Rest(_, _) => false,
        },
    }
}

/// Whether the terminal is one too many, where `outside` says that whatever it begins is.
fn large_by(outside: bool, terminal: Terminal) -> bool
    ensures { result ≡ spec.large_by outside terminal }
{
    match terminal {
        Terminal::Var(number, _) => outside || number > MOST_VARIABLES,
        _ => outside,
    }
}

/// Whether the terminal begins a part that is one too many, or is a variable that is. `outside` says that the whole term is one too many.
#[tactic(auto, unfolding(crate::specs::Terms::is_large))]
pub fn is_large(outside: bool, at: &TermAt, terminal: Terminal) -> bool
    ensures { result ≡ spec.is_large outside at.now terminal }
{
    let wanted = matches!(at.phase, Phase::Want);
    large_by(wanted && full(outside, &at.stack), terminal)
}

/// Whether the terminal is a `(` where the term has to begin: an expression's, since no term begins with one.
pub fn opens_group(at: &TermAt, terminal: Terminal) -> bool
    ensures { result ≡ spec.opens_group at.now terminal }
{
    match terminal {
        Terminal::RoundOpen(_) => match at.phase {
            Phase::Want => at.stack.is_empty(),
            _ => false,
        },
        _ => false,
    }
}
