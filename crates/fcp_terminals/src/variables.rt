//! The variables of a clause or a goal, which are numbered from 1 in the order of their first occurrences.
ghost use Rattle.std.specs.Prelude.{◌≡◌, ◌<◌, ◌≤◌, length, IfOk, IfSome, position};
ghost use Rattle.std.specs.Str.{bytes_eq};
ghost use Rattle.fcp_grammar.specs.Limits.{most_variables};
ghost use Rattle.fcp_terminals.specs.Numbering as spec;

use fcp_grammar::MOST_VARIABLES;
use fcp_model::{Names, NoMemory, Seq, Sym, Text};
use std::alloc::Global;

/// What a text is read as.
#[derive(Clone, Copy, Debug, PartialEq, Eq)]
pub enum Form {
    /// Variables are numbered anew in each clause, and have no names.
    Module,
    /// All variables are numbered together, and their names are noted.
    Goal,
}

/// A variable: its text, and in a goal the number of its name among the strings, where that does not begin with `_`.
#[derive(Drop)]
pub struct Variable {
    pub text: Text,
    pub name: Option<Sym>,
}

/// Where, from 0, the variable stands among those so far. No `_` is one of them.
fn find(variables: &[Variable], text: &str) -> Option<usize>
    ensures value { result ≡ spec.find variables.now text.now }
    ensures within { IfSome result (λ i. i < length variables.now) }
{
    if text == "_" {
        None
    } else {
        position_of(variables, text)
    }
}

fn position_of(variables: &[Variable], text: &str) -> Option<usize>
    ensures value { result ≡ position (λ v. bytes_eq v.text text.now) variables.now }
    ensures within { IfSome result (λ i. i < length variables.now) }
{
    variables.iter().position(|v| v.text.as_str() == text)
}

/// The number of a new variable's name among the strings, where it has one.
fn name_of(form: Form, text: &str, names: &mut Names) -> Result<Option<Sym>, NoMemory>
    ensures value { IfOk result (λ n. n ≡ spec.name_of form names.old text.now) }
    ensures names { IfOk result (λ n. names.new ≡ spec.named form names.old text.now) }
    ensures grows { spec.Grows names.old names.new }
{
    match form {
        Form::Module => Ok(None),
        Form::Goal => {
            if text.starts_with("_") {
                Ok(None)
            } else {
                Ok(Some(names.note(text)?))
            }
        }
    }
}

/// The number of an occurrence of a variable, from 1. A new one is put last where there is room, and has the number 251
/// where there is none.
#[tactic(auto, unfolding(crate::specs::Numbering::number, crate::specs::Numbering::with_variable))]
pub fn number(
    alloc: Global,
    form: Form,
    text: &str,
    names: &mut Names,
    variables: &mut Seq<Variable>,
) -> Result<u8, NoMemory>
    requires { length variables.old ≤ most_variables }
    ensures value { IfOk result (λ k. k ≡ spec.number variables.old text.now) }
    ensures after { IfOk result (λ k. spec.with_variable form (spec.env names.old variables.old) text.now ≡ spec.env names.new variables.new) }
    ensures few { length variables.new ≤ most_variables }
    ensures grows { spec.Grows names.old names.new }
{
    if let Some(at) = find(variables.as_slice(), text) {
        return Ok(at as u8 + 1);
    }
    let next = variables.len() as u8 + 1;
    if variables.len() >= MOST_VARIABLES as usize {
        return Ok(next);
    }
    let name = name_of(form, text, names)?;
    let text = Text::make(alloc, text)?;
    match variables.push(Variable { text, name }) {
        Ok(()) => Ok(next),
        Err(_) => Err(NoMemory),
    }
}
