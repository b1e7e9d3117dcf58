//! Reads the texts of modules and of goals.
ghost use Rattle.std.specs.Prelude.{◌≡◌, ◌≤◌, ◌++◌, ◌∷◌, [], length, map, IfOk};
ghost use Rattle.fcp_text.specs.Bytes.{most_bytes};
ghost use Rattle.fcp_grammar.specs.Limits.{most_items};
ghost use Rattle.fcp_terminals.specs.Numbering.{Grows};
ghost use Rattle.fcp_reader.specs.Refusals.{Refuses};
ghost use Rattle.fcp_reader.specs.Sources.{ReadsModule, ReadsGoal};

use crate::goals::goal_items_of;
use crate::modules::module_of;
use crate::reading::Stopped;
use fcp_model::{Fault, GoalText, Module, Names, NoMemory, Refused, Seq, Sym};
use fcp_terminals::{Form, Variable, place_at, terminals_of};
use fcp_text::{Token, tokens};
use std::alloc::Global;

/// Why a text was refused whose terminals were not read.
fn refusal(bytes: &[u8], tokens: &[Token], stopped: Stopped) -> Refused
    requires { length bytes.now ≤ most_bytes }
    ensures { Refuses bytes.now tokens.now stopped result }
{
    match stopped {
        Stopped::NoMemory => Refused::NoMemory(NoMemory),
        Stopped::Fault(code, terminal) => Refused::Fault(Fault {
            code,
            at: place_at(bytes, tokens, terminal),
        }),
    }
}

/// The module of a text of at most `MOST_BYTES` bytes, or the first fault of its tokens or its grammar: one that is not UTF-8
/// before all, then one of the tokens, then one of the grammar, at the place of a token or at the text's length. The
/// text's strings are put behind those of `names`; after a refusal some of them may be there.
pub fn read_module(alloc: Global, bytes: &[u8], names: &mut Names) -> Result<Module, Refused>
    requires { length bytes.now ≤ most_bytes }
    ensures read { ReadsModule names.old bytes.now names.new result }
    ensures grows { Grows names.old names.new }
{
    let tokens = match tokens(alloc, bytes) {
        Ok(tokens) => tokens,
        Err(refused) => return Err(refused),
    };
    let Ok(read) = terminals_of(alloc, Form::Module, bytes, tokens.as_slice(), names) else {
        return Err(Refused::NoMemory(NoMemory));
    };
    match module_of(alloc, read.terminals.as_slice()) {
        Ok(module) => Ok(module),
        Err(stopped) => Err(refusal(bytes, tokens.as_slice(), stopped)),
    }
}

/// The numbers of the variables' names.
fn names_of(alloc: Global, variables: &[Variable]) -> Result<Seq<Option<Sym>>, NoMemory>
    ensures { IfOk result (λ names. names ≡ map (λ v. v.name) variables.now) }
{
    let mut names = Seq::empty(alloc);
    for variable in variables {
        names = names.with(variable.name)?;
    }
    Ok(names)
}

/// The goal of a text of at most `MOST_BYTES` bytes, or its first fault as `read_module` has it. The text's strings, among
/// them the names of its variables that do not begin with `_`, are put behind those of `names`; after a refusal some of
/// them may be there. A goal has at most `MOST_ITEMS` items.
pub fn read_goal(alloc: Global, bytes: &[u8], names: &mut Names) -> Result<GoalText, Refused>
    requires { length bytes.now ≤ most_bytes }
    ensures read { ReadsGoal names.old bytes.now names.new result }
    ensures few { IfOk result (λ g. length g.items ≤ most_items) }
    ensures grows { Grows names.old names.new }
{
    let tokens = match tokens(alloc, bytes) {
        Ok(tokens) => tokens,
        Err(refused) => return Err(refused),
    };
    let Ok(read) = terminals_of(alloc, Form::Goal, bytes, tokens.as_slice(), names) else {
        return Err(Refused::NoMemory(NoMemory));
    };
    let items = match goal_items_of(alloc, read.terminals.as_slice()) {
        Ok(items) => items,
        Err(stopped) => return Err(refusal(bytes, tokens.as_slice(), stopped)),
    };
    match names_of(alloc, read.variables.as_slice()) {
        Ok(names) => Ok(GoalText { items, names }),
        Err(_) => Err(Refused::NoMemory(NoMemory)),
    }
}
