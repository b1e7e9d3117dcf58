//! Reading clauses, one terminal after another.
ghost use Rattle.std.specs.Prelude.{◌≡◌, ◌∷◌, ◌++◌, [], IfOk};
ghost use Rattle.fcp_reader.specs.Clauses as spec;

use crate::state::{Head, Part, State};
use fcp_grammar::{
    ItemStep, MOST_ARGUMENTS, MOST_ITEMS, Side, TermAt, Terminal, Told, is_large, start,
    step as step_term, step_side, term_of,
};
use fcp_model::{Clause, Item, Module, NoMemory, Seq, Sym, Term};
use std::alloc::Global;

fn ended(
    alloc: Global,
    read: Module,
    head: Head,
    guard: Option<Seq<Item>>,
    body: Seq<Item>,
    vars: u8,
) -> Result<State, NoMemory>
    ensures { IfOk result (λ s. s ≡ spec.ended read head guard body vars) }
{
    let guard = match guard {
        None => Seq::empty(alloc),
        Some(items) => items,
    };
    let mut read = read;
    let clause = Clause {
        at: head.at,
        head: head.name,
        args: head.args,
        guard,
        body,
        vars,
    };
    match read.clauses.push(clause) {
        Ok(()) => Ok(State {
            read,
            part: Part::Between,
        }),
        Err(_) => Err(NoMemory),
    }
}

/// The terminal behind a head.
#[tactic(auto, unfolding(crate::specs::Clauses::behind_head))]
pub fn behind_head(
    alloc: Global,
    read: Module,
    head: Head,
    terminal: Terminal,
) -> Result<Option<(State, bool)>, NoMemory>
    ensures { IfOk result (λ r. r ≡ spec.behind_head read head terminal) }
{
    match terminal {
        Terminal::If => Ok(Some((
            State {
                read,
                part: Part::Body(head, None, Seq::empty(alloc), Side::Start),
            },
            false,
        ))),
        Terminal::Dot(vars) => Ok(Some((
            ended(alloc, read, head, None, Seq::empty(alloc), vars)?,
            false,
        ))),
        _ => Ok(None),
    }
}

/// One more terminal within the arguments of a head, and whether it is one too many. `None` says that it cannot stand there;
/// `Err` is want of memory.
#[tactic(auto, unfolding(crate::specs::Clauses::in_args))]
pub fn in_args(
    alloc: Global,
    read: Module,
    place: u32,
    name: Sym,
    done: Seq<Term>,
    at: TermAt,
    terminal: Terminal,
) -> Result<Option<(State, bool)>, NoMemory>
    ensures { IfOk result (λ r. r ≡ spec.in_args read place name done at terminal) }
{
    let large = is_large(done.len() >= MOST_ARGUMENTS, &at, terminal);
    match step_term(alloc, at, terminal)? {
        Told::Read(next) => Ok(Some((
            State {
                read,
                part: Part::Args(place, name, done, next),
            },
            large,
        ))),
        Told::Whole(phase) => match terminal {
            Terminal::Comma => Ok(Some((
                State {
                    read,
                    part: Part::Args(place, name, done.with(term_of(phase)?)?, start(alloc)),
                },
                false,
            ))),
            Terminal::RoundClose => {
                let head = Head {
                    at: place,
                    name,
                    args: done.with(term_of(phase)?)?,
                };
                Ok(Some((
                    State {
                        read,
                        part: Part::Called(head),
                    },
                    false,
                )))
            }
            _ => Ok(None),
        },
        Told::Refused => Ok(None),
    }
}

/// The terminal behind an item.
#[tactic(auto, unfolding(crate::specs::Clauses::behind_item))]
fn behind_item(
    alloc: Global,
    read: Module,
    head: Head,
    guard: Option<Seq<Item>>,
    items: Seq<Item>,
    terminal: Terminal,
) -> Result<Option<(State, bool)>, NoMemory>
    ensures { IfOk result (λ r. r ≡ spec.behind_item read head guard items terminal) }
{
    match terminal {
        Terminal::Comma => Ok(Some((
            State {
                read,
                part: Part::Body(head, guard, items, Side::Start),
            },
            false,
        ))),
        Terminal::Bar => match guard {
            None => Ok(Some((
                State {
                    read,
                    part: Part::Body(head, Some(items), Seq::empty(alloc), Side::Start),
                },
                false,
            ))),
            Some(_) => Ok(None),
        },
        Terminal::Dot(vars) => Ok(Some((ended(alloc, read, head, guard, items, vars)?, false))),
        _ => Ok(None),
    }
}

/// One more terminal within a guard or a body, and whether it is one too many. `None` says that it cannot stand there; `Err` is
/// want of memory.
#[tactic(auto, unfolding(crate::specs::Clauses::in_body))]
pub fn in_body(
    alloc: Global,
    read: Module,
    head: Head,
    guard: Option<Seq<Item>>,
    items: Seq<Item>,
    side: Side,
    terminal: Terminal,
) -> Result<Option<(State, bool)>, NoMemory>
    ensures { IfOk result (λ r. r ≡ spec.in_body read head guard items side terminal) }
{
    match step_side(alloc, items.len() >= MOST_ITEMS, side, terminal)? {
        ItemStep::Goes(next, large) => Ok(Some((
            State {
                read,
                part: Part::Body(head, guard, items, next),
            },
            large,
        ))),
        ItemStep::Ends(item) => behind_item(alloc, read, head, guard, items.with(item)?, terminal),
        ItemStep::Refused => Ok(None),
    }
}
