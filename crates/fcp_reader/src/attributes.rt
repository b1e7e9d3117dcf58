//! Reading an attribute, one terminal after another.
ghost use Rattle.std.specs.Prelude.{◌≡◌, ◌∷◌, ◌++◌, [], IfOk};
ghost use Rattle.fcp_reader.specs.Attributes as spec;
ghost use Rattle.fcp_reader.specs.ModuleValues as values;

use fcp_grammar::{MOST_ARGUMENTS, StringForm, Terminal};
use fcp_model::{ArithOp, Export, NoMemory, Seq, Sym};
use std::alloc::Global;

/// What a `-module` wants next: its `(`, its string, its `)`, its `.`.
#[derive(Clone, Copy, Debug, PartialEq, Eq)]
pub enum NameAt {
    Open,
    Name,
    Close(Sym),
    End(Sym),
}

/// What an `-export` wants next, with its elements so far.
#[derive(Drop)]
pub enum ListAt {
    /// Its `(`.
    Open,
    /// Its `[`.
    Square,
    /// A string or the `]`.
    First,
    /// A string.
    Next(Seq<Export>),
    /// The `/` behind a string with its place.
    Slash(Seq<Export>, u32, Sym),
    /// The number behind the `/`.
    Arity(Seq<Export>, u32, Sym),
    /// A `,` or the `]`.
    More(Seq<Export>),
    /// Its `)`.
    Close(Seq<Export>),
    /// Its `.`.
    End(Seq<Export>),
}

/// How far an attribute is read.
#[derive(Drop)]
pub enum AttributeAt {
    /// Behind the `-`.
    Dash,
    Name(NameAt),
    List(ListAt),
    /// Behind any other name.
    Unknown,
}

/// What an attribute says.
#[derive(Drop)]
pub enum Said {
    Name(Sym),
    List(Seq<Export>),
    Unknown,
}

/// What a terminal is to an attribute.
#[derive(Drop)]
pub enum AttributeStep {
    /// It goes on; the flag says that the terminal is one too many.
    Goes(AttributeAt, bool),
    /// The attribute ends with it.
    Ends(Said),
    Refused,
}

/// No procedure has so many arguments.
fn is_no_arity(number: i64) -> bool
    ensures { result ≡ values.is_no_arity number }
{
    number < 0 || number > MOST_ARGUMENTS as i64
}

/// The number of arguments, or 0 where it is none.
fn arity_of(number: i64) -> u32
    ensures { result ≡ values.arity_of number }
{
    if is_no_arity(number) {
        0
    } else {
        number.unsigned_abs() as u32
    }
}

/// With one more element at the end.
fn with_export(done: Seq<Export>, at: u32, name: Sym, number: i64) -> Result<Seq<Export>, NoMemory>
    ensures { IfOk result (λ v. v ≡ done ++ values.export_of at name number ∷ []) }
{
    done.with(Export {
        at,
        name,
        arity: arity_of(number),
    })
}

/// One more terminal of a `-module`.
#[tactic(auto, unfolding(crate::specs::Attributes::step_name))]
fn step_name(at: NameAt, terminal: Terminal) -> AttributeStep
    ensures { result ≡ spec.step_name at terminal }
{
    let next = match at {
        NameAt::Open => match terminal {
            Terminal::RoundOpen(_) => NameAt::Name,
            _ => return AttributeStep::Refused,
        },
        NameAt::Name => match terminal {
            Terminal::Str(name, _, _) => NameAt::Close(name),
            _ => return AttributeStep::Refused,
        },
        NameAt::Close(name) => match terminal {
            Terminal::RoundClose => NameAt::End(name),
            _ => return AttributeStep::Refused,
        },
        NameAt::End(name) => match terminal {
            Terminal::Dot(_) => return AttributeStep::Ends(Said::Name(name)),
            _ => return AttributeStep::Refused,
        },
    };
    AttributeStep::Goes(AttributeAt::Name(next), false)
}

fn goes(next: ListAt) -> AttributeStep
    ensures { result ≡ spec.lists next }
{
    AttributeStep::Goes(AttributeAt::List(next), false)
}

/// One more terminal behind an element of an `-export`.
fn behind_export(done: Seq<Export>, terminal: Terminal) -> AttributeStep
    ensures { result ≡ spec.behind_export done terminal }
{
    match terminal {
        Terminal::Comma => goes(ListAt::Next(done)),
        Terminal::SquareClose => goes(ListAt::Close(done)),
        _ => AttributeStep::Refused,
    }
}

/// The number of an element.
fn step_arity(
    done: Seq<Export>,
    at: u32,
    name: Sym,
    terminal: Terminal,
) -> Result<AttributeStep, NoMemory>
    ensures { IfOk result (λ r. r ≡ spec.step_arity done at name terminal) }
{
    match terminal {
        Terminal::Int(number, _) => {
            let next = ListAt::More(with_export(done, at, name, number)?);
            Ok(AttributeStep::Goes(AttributeAt::List(next), is_no_arity(number)))
        }
        _ => Ok(AttributeStep::Refused),
    }
}

/// One more terminal of an `-export`.
#[tactic(auto, unfolding(crate::specs::Attributes::step_list))]
fn step_list(alloc: Global, at: ListAt, terminal: Terminal) -> Result<AttributeStep, NoMemory>
    ensures { IfOk result (λ r. r ≡ spec.step_list at terminal) }
{
    match at {
        ListAt::Arity(done, place, name) => step_arity(done, place, name, terminal),
        ListAt::More(done) => Ok(behind_export(done, terminal)),
        ListAt::Open => match terminal {
            Terminal::RoundOpen(_) => Ok(goes(ListAt::Square)),
            _ => Ok(AttributeStep::Refused),
        },
        ListAt::Square => match terminal {
            Terminal::SquareOpen(_) => Ok(goes(ListAt::First)),
            _ => Ok(AttributeStep::Refused),
        },
        ListAt::First => match terminal {
            Terminal::Str(name, _, place) => Ok(goes(ListAt::Slash(
                Seq::empty(alloc),
                place,
                name,
            ))),
            Terminal::SquareClose => Ok(goes(ListAt::Close(Seq::empty(alloc)))),
            _ => Ok(AttributeStep::Refused),
        },
        ListAt::Next(done) => match terminal {
            Terminal::Str(name, _, place) => Ok(goes(ListAt::Slash(done, place, name))),
            _ => Ok(AttributeStep::Refused),
        },
        ListAt::Slash(done, place, name) => match terminal {
            Terminal::Operator(ArithOp::Div, _) => Ok(goes(ListAt::Arity(done, place, name))),
            _ => Ok(AttributeStep::Refused),
        },
        ListAt::Close(done) => match terminal {
            Terminal::RoundClose => Ok(goes(ListAt::End(done))),
            _ => Ok(AttributeStep::Refused),
        },
        ListAt::End(done) => match terminal {
            Terminal::Dot(_) => Ok(AttributeStep::Ends(Said::List(done))),
            _ => Ok(AttributeStep::Refused),
        },
    }
}

/// The terminal behind the `-`, which says what attribute it is.
fn step_dash(terminal: Terminal) -> AttributeStep
    ensures { result ≡ spec.step_dash terminal }
{
    match terminal {
        Terminal::Str(_, form, _) => match form {
            StringForm::Module => AttributeStep::Goes(AttributeAt::Name(NameAt::Open), false),
            StringForm::Export => AttributeStep::Goes(AttributeAt::List(ListAt::Open), false),
            StringForm::Name | StringForm::Mod => AttributeStep::Goes(AttributeAt::Unknown, false),
            StringForm::Quoted => AttributeStep::Refused,
        },
        _ => AttributeStep::Refused,
    }
}

/// One more terminal of an attribute.
#[tactic(auto, unfolding(crate::specs::Attributes::step_attribute))]
pub fn step_attribute(
    alloc: Global,
    at: AttributeAt,
    terminal: Terminal,
) -> Result<AttributeStep, NoMemory>
    ensures { IfOk result (λ r. r ≡ spec.step_attribute at terminal) }
{
    match at {
        AttributeAt::Dash => Ok(step_dash(terminal)),
        AttributeAt::Name(at) => Ok(step_name(at, terminal)),
        AttributeAt::List(at) => step_list(alloc, at, terminal),
        AttributeAt::Unknown => match terminal {
            Terminal::Dot(_) => Ok(AttributeStep::Ends(Said::Unknown)),
            _ => Ok(AttributeStep::Goes(AttributeAt::Unknown, false)),
        },
    }
}
