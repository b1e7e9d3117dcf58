//! The terminals of a text: its tokens, with the numbers of strings and variables.
ghost use Rattle.std.specs.Prelude.{◌≡◌, ◌≤◌, ◌+◌, ◌∷◌, ◌++◌, [], length, IfOk, Ok};
ghost use Rattle.fcp_text.specs.TokenLaws.{IsSpelledWell};
ghost use Rattle.fcp_text.specs.Tokens as lexer;
ghost use Rattle.fcp_grammar.specs.Limits.{most_variables};
ghost use Rattle.fcp_terminals.specs.Lexemes.{lexeme, lexemes};
ghost use Rattle.fcp_terminals.specs.MarkTerminals as marks;
ghost use Rattle.fcp_terminals.specs.Numbering as spec;

use crate::marks::mark_terminal;
use crate::strings::{as_text, bytes_of, content, name_form};
use crate::variables::{Form, Variable, number};
use fcp_grammar::{StringForm, Terminal};
use fcp_model::{Names, NoMemory, Seq};
use fcp_text::{Kind, Token, mark};
use std::alloc::Global;

/// The terminals of a text, and the variables that are numbered at its end: none in a module whose last clause has its `.`,
/// and all in a goal.
#[derive(Drop)]
pub struct Terminals {
    pub terminals: Seq<Terminal>,
    pub variables: Seq<Variable>,
}

/// The terminal of a mark. The `.` of a clause forgets the variables.
fn terminal_of_mark(
    alloc: Global,
    form: Form,
    at: u32,
    number: u8,
    variables: &mut Seq<Variable>,
) -> Terminal
    requires { length variables.old ≤ most_variables }
    ensures value { result ≡ marks.mark_terminal at (length variables.old) number }
    ensures after { variables.new ≡ spec.behind_mark form number variables.old }
    ensures few { length variables.new ≤ most_variables }
{
    let terminal = mark_terminal(at, variables.len() as u8, number);
    if number == mark::DOT && form == Form::Module {
        *variables = Seq::empty(alloc);
    }
    terminal
}

/// The terminal of a token.
fn terminal_of(
    alloc: Global,
    form: Form,
    text: &[u8],
    token: Token,
    names: &mut Names,
    variables: &mut Seq<Variable>,
) -> Result<Terminal, NoMemory>
    requires within { token.at + token.len ≤ length text.now }
    requires spelled { IsSpelledWell token.kind (lexer.text_of text.now token) }
    requires few { length variables.old ≤ most_variables }
    ensures value { IfOk result (λ w. w ≡ spec.terminal_of form (spec.env names.old variables.old) (lexeme text.now token)) }
    ensures after { IfOk result (λ w. spec.env_after form (spec.env names.old variables.old) (lexeme text.now token) ≡ spec.env names.new variables.new) }
    ensures few { length variables.new ≤ most_variables }
    ensures grows { spec.Grows names.old names.new }
{
    let at = token.at;
    match token.kind {
        Kind::Name => {
            let name = as_text(bytes_of(text, token));
            Ok(Terminal::Str(names.note(name)?, name_form(name), at))
        }
        Kind::Quoted => {
            let string = content(alloc, bytes_of(text, token))?;
            Ok(Terminal::Str(names.note(string.as_str())?, StringForm::Quoted, at))
        }
        Kind::Variable => {
            let name = as_text(bytes_of(text, token));
            Ok(Terminal::Var(number(alloc, form, name, names, variables)?, at))
        }
        Kind::Int(value) => Ok(Terminal::Int(value, at)),
        Kind::Mark(mark) => Ok(terminal_of_mark(alloc, form, at, mark, variables)),
    }
}

/// The terminals of a text's tokens, one for each, in their order. Each string is noted in the list of names, where it stands
/// in the text, and so is in a goal the name of each variable that does not begin with `_`, where it occurs first.
/// `Err` is want of memory alone; some strings may be noted then.
pub fn terminals_of(
    alloc: Global,
    form: Form,
    text: &[u8],
    tokens: &[Token],
    names: &mut Names,
) -> Result<Terminals, NoMemory>
    requires { lexer.tokens_of text.now ≡ Ok tokens.now }
    ensures value { IfOk result (λ w. w.terminals ≡ spec.terminals_from form (spec.env names.old []) (lexemes text.now tokens.now)) }
    ensures after { IfOk result (λ w. spec.env_from form (spec.env names.old []) (lexemes text.now tokens.now) ≡ spec.env names.new w.variables) }
    ensures grows { spec.Grows names.old names.new }
{
    let mut terminals = Seq::empty(alloc);
    let mut variables = Seq::empty(alloc);
    let mut rest = tokens;
    while let [token, more @ ..] = rest {
        let terminal = terminal_of(alloc, form, text, *token, names, &mut variables)?;
        terminals = terminals.with(terminal)?;
        rest = more;
    }
    Ok(Terminals {
        terminals,
        variables,
    })
}
