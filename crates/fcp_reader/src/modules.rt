//! Reading a module's terminals.
ghost use Rattle.std.specs.Prelude.{◌≡◌, ◌++◌, [], IfOk};
ghost use Rattle.fcp_reader.specs.ModuleValues as values;
ghost use Rattle.fcp_reader.specs.Modules as spec;
ghost use Rattle.fcp_reader.specs.Texts.{ReadsModule};

use crate::attributes::{AttributeAt, AttributeStep, Said, step_attribute};
use crate::clauses::{behind_head, in_args, in_body};
use crate::reading::{Stopped, deeper, fault_of};
use crate::state::{Head, Part, State};
use fcp_grammar::{Terminal, start};
use fcp_model::{ArithOp, Code, Export, Module, NoMemory, Seq, Sym};
use std::alloc::Global;

/// The module of no terminals.
fn nothing(alloc: Global) -> Module
    ensures { result ≡ values.nothing }
{
    Module {
        name: None,
        again: None,
        other: None,
        exports: None,
        clauses: Seq::empty(alloc),
    }
}

/// Both lists, one behind the other.
fn joined(front: Seq<Export>, back: Seq<Export>) -> Result<Seq<Export>, NoMemory>
    ensures { IfOk result (λ v. v ≡ front ++ back) }
{
    let mut joined = front.into_vec();
    match joined.extend_from_slice(back.as_slice()) {
        Ok(()) => Ok(Seq::of(joined)),
        Err(_) => Err(NoMemory),
    }
}

/// With a further list behind those so far.
fn with_exports(alloc: Global, read: Module, exports: Seq<Export>) -> Result<Module, NoMemory>
    ensures { IfOk result (λ m. m ≡ values.with_exports read exports) }
{
    let Module {
        name,
        again,
        other,
        exports: before,
        clauses,
    } = read;
    let before = match before {
        None => Seq::empty(alloc),
        Some(before) => before,
    };
    Ok(Module {
        name,
        again,
        other,
        exports: Some(joined(before, exports)?),
        clauses,
    })
}

/// With the name, or with the place of a second `-module`.
fn with_name(read: Module, dash: u32, name: Sym) -> Module
    ensures { result ≡ values.with_name read dash name }
{
    let mut read = read;
    if read.name.is_none() {
        read.name = Some(name);
    } else if read.again.is_none() {
        read.again = Some(dash);
    }
    read
}

/// With the place of the first attribute that is neither.
fn with_unknown(read: Module, dash: u32) -> Module
    ensures { result ≡ values.with_unknown read dash }
{
    let mut read = read;
    if read.other.is_none() {
        read.other = Some(dash);
    }
    read
}

/// With an attribute whose `-` has this place.
fn with_said(alloc: Global, read: Module, dash: u32, said: Said) -> Result<Module, NoMemory>
    ensures { IfOk result (λ m. m ≡ values.with_said read dash said) }
{
    match said {
        Said::Name(name) => Ok(with_name(read, dash, name)),
        Said::List(exports) => with_exports(alloc, read, exports),
        Said::Unknown => Ok(with_unknown(read, dash)),
    }
}

/// One more terminal of an attribute.
#[tactic(auto, unfolding(crate::specs::Modules::in_attribute))]
fn in_attribute(
    alloc: Global,
    read: Module,
    dash: u32,
    at: AttributeAt,
    terminal: Terminal,
) -> Result<Option<(State, bool)>, NoMemory>
    ensures { IfOk result (λ r. r ≡ spec.in_attribute read dash at terminal) }
{
    match step_attribute(alloc, at, terminal)? {
        AttributeStep::Goes(next, large) => {
            let part = Part::Attribute(dash, next);
            Ok(Some((State { read, part }, large)))
        }
        AttributeStep::Ends(said) => {
            let read = with_said(alloc, read, dash, said)?;
            let part = Part::Between;
            Ok(Some((State { read, part }, false)))
        }
        AttributeStep::Refused => Ok(None),
    }
}

/// The first terminal of a clause or an attribute.
fn between(read: Module, terminal: Terminal) -> Option<(State, bool)>
    ensures { result ≡ spec.between read terminal }
{
    let part = match terminal {
        Terminal::Str(name, _, at) => Part::Named(at, name),
        Terminal::Operator(ArithOp::Sub, at) => Part::Attribute(at, AttributeAt::Dash),
        _ => return None,
    };
    Some((State { read, part }, false))
}

/// One more terminal, and whether it is one too many. None where it goes on no text.
#[tactic(auto, unfolding(crate::specs::Modules::step))]
fn step(alloc: Global, state: State, terminal: Terminal) -> Result<Option<(State, bool)>, NoMemory>
    ensures { IfOk result (λ r. r ≡ spec.step state terminal) }
{
    let State { read, part } = state;
    match part {
        Part::Between => Ok(between(read, terminal)),
        Part::Attribute(dash, at) => in_attribute(alloc, read, dash, at, terminal),
        Part::Named(at, name) => match terminal {
            Terminal::RoundOpen(_) => {
                let part = Part::Args(at, name, Seq::empty(alloc), start(alloc));
                Ok(Some((State { read, part }, false)))
            }
            _ => {
                let args = Seq::empty(alloc);
                behind_head(alloc, read, Head { at, name, args }, terminal)
            }
        },
        Part::Args(place, name, done, at) => in_args(alloc, read, place, name, done, at, terminal),
        Part::Called(head) => behind_head(alloc, read, head, terminal),
        Part::Body(head, guard, items, side) => in_body(
            alloc, read, head, guard, items, side, terminal,
        ),
    }
}

/// The module that the terminals are, or the first fault.
pub fn module_of(alloc: Global, terminals: &[Terminal]) -> Result<Module, Stopped>
    ensures { ReadsModule terminals.now result }
{
    let mut depth: usize = 0;
    let mut state = State {
        read: nothing(alloc),
        part: Part::Between,
    };
    for (i, terminal) in terminals.iter().enumerate() {
        let Ok(next) = step(alloc, state, *terminal) else {
            return Err(Stopped::NoMemory);
        };
        let Some((next, large)) = next else {
            return Err(Stopped::Fault(Code::Unexpected, i));
        };
        if let Some(code) = fault_of(depth, *terminal, large) {
            return Err(Stopped::Fault(code, i));
        }
        depth = deeper(depth, *terminal);
        state = next;
    }
    let State { read, part } = state;
    match part {
        Part::Between => Ok(read),
        _ => Err(Stopped::Fault(Code::Unexpected, terminals.len())),
    }
}
