//! Tests of `fcp_terminals`: texts with each kind of terminal.
use fcp_grammar::{StringForm, Terminal};
use fcp_model::{ArithOp, CompareOp, Names, Sym};
use fcp_terminals::{Form, terminals_of};
use fcp_text::tokens;
use std::alloc::Global;
use std::test::Fail;

const X: u8 = 1;

fn terminals_in(alloc: Global, text: &[u8]) -> Result<Vec<Terminal>, Fail> {
    if text.len() > 100 {
        return Err("a long text".into());
    }
    let mut names = Names::make(alloc)?;
    let tokens = tokens(alloc, text)?;
    let read = terminals_of(alloc, Form::Module, text, tokens.as_slice(), &mut names)?;
    Ok(read.terminals.into_vec())
}

const CLAUSE: [Terminal; 12] = [
    Terminal::Str(Sym(9), StringForm::Name, 0),
    Terminal::RoundOpen(1),
    Terminal::Var(X, 2),
    Terminal::Question,
    Terminal::Comma,
    Terminal::Var(2, 5),
    Terminal::RoundClose,
    Terminal::If,
    Terminal::Var(X, 11),
    Terminal::Same,
    Terminal::Str(Sym(10), StringForm::Quoted, 16),
    Terminal::Dot(2),
];

const SIDES: [Terminal; 17] = [
    Terminal::Var(X, 0),
    Terminal::Equals,
    Terminal::SquareOpen(2),
    Terminal::Str(Sym(9), StringForm::Name, 3),
    Terminal::Bar,
    Terminal::CurlyOpen(5),
    Terminal::CurlyClose,
    Terminal::SquareClose,
    Terminal::NotSame,
    Terminal::Var(X, 11),
    Terminal::Assign,
    Terminal::Int(7, 14),
    Terminal::Str(Sym(10), StringForm::Mod, 16),
    Terminal::Int(-7, 19),
    Terminal::Operator(ArithOp::Mul, 21),
    Terminal::Int(1, 22),
    Terminal::Other,
];

const ATTRIBUTES: [Terminal; 10] = [
    Terminal::Operator(ArithOp::Sub, 0),
    Terminal::Str(Sym(9), StringForm::Module, 1),
    Terminal::RoundOpen(7),
    Terminal::Str(Sym(10), StringForm::Name, 8),
    Terminal::RoundClose,
    Terminal::Dot(0),
    Terminal::Operator(ArithOp::Sub, 11),
    Terminal::Str(Sym(11), StringForm::Export, 12),
    Terminal::Operator(ArithOp::Div, 18),
    Terminal::Str(Sym(9), StringForm::Quoted, 19),
];

const SIGNS: [Terminal; 8] = [
    Terminal::Compare(CompareOp::Less),
    Terminal::Compare(CompareOp::AtMost),
    Terminal::Compare(CompareOp::Greater),
    Terminal::Compare(CompareOp::AtLeast),
    Terminal::Compare(CompareOp::Equal),
    Terminal::Compare(CompareOp::NotEqual),
    Terminal::Operator(ArithOp::Add, 18),
    Terminal::Operator(ArithOp::Sub, 20),
];

const QUOTED: [Terminal; 3] = [
    Terminal::Str(Sym(9), StringForm::Quoted, 0),
    Terminal::Str(Sym(9), StringForm::Quoted, 7),
    Terminal::Str(Sym(10), StringForm::Quoted, 13),
];

#[test]
fn each_token_has_its_terminal(rt: HostRuntime) -> Result<(), Fail> {
    let rows = [
        (b"p(X?,_) :- X == 'mod'.".as_slice(), CLAUSE.as_slice()),
        (b"X=[a|{}]\\==X:=7 mod-7*1#", SIDES.as_slice()),
        (b"-module(m).-export/'module'", ATTRIBUTES.as_slice()),
        (b"< =< > >= =:= =\\= + -", SIGNS.as_slice()),
        (b"'a''b' \"a'b\" 'a\"b'", QUOTED.as_slice()),
    ];
    for (text, wanted) in rows {
        let found = terminals_in(rt.alloc(), text)?;
        assert_eq!(rt; found.as_slice(), wanted, "{text:?}");
    }
    Ok(())
}
