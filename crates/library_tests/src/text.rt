//! Tests of `fcp_text`: the tokens of texts. Texts with a fault stand in the tables of the program, which try the writers too.
use fcp_text::{Kind, Token, tokens};
use std::alloc::Global;
use std::test::Fail;

const LINE: &str = "p(X?,'a''b'):-%\n";

/// `a 'b''c',X_1 =\= -7 % d` and a `.` on the next line.
const TOKENS: [Token; 7] = [
    Token {
        kind: Kind::Name,
        at: 0,
        len: 1,
    },
    Token {
        kind: Kind::Quoted,
        at: 2,
        len: 6,
    },
    Token {
        kind: Kind::Mark(7),
        at: 8,
        len: 1,
    },
    Token {
        kind: Kind::Variable,
        at: 9,
        len: 3,
    },
    Token {
        kind: Kind::Mark(20),
        at: 13,
        len: 3,
    },
    Token {
        kind: Kind::Int(-7),
        at: 17,
        len: 2,
    },
    Token {
        kind: Kind::Mark(8),
        at: 24,
        len: 1,
    },
];

fn tokens_in(alloc: Global, text: &[u8]) -> Result<Vec<Token>, Fail> {
    if text.len() > 1_048_576 {
        return Err("a long text".into());
    }
    Ok(tokens(alloc, text)?.into_vec())
}

#[test]
fn each_token_has_its_place(rt: HostRuntime) -> Result<(), Fail> {
    let found = tokens_in(rt.alloc(), b"a 'b''c',X_1 =\\= -7 % d\n.")?;
    assert_eq!(rt; found.as_slice(), TOKENS.as_slice());
    Ok(())
}

/// A text of the greatest length, with half a million tokens.
#[test]
fn a_text_of_the_greatest_length_is_cut(rt: HostRuntime) -> Result<(), Fail> {
    let mut text = String::new(rt.alloc());
    for _ in 0..65_536 {
        text.push_str(LINE)?;
    }
    let found = tokens_in(rt.alloc(), text.as_bytes())?;
    assert_eq!(rt; found.len(), 8 * 65_536);
    let last = Token {
        kind: Kind::Mark(10),
        at: 1_048_572,
        len: 2,
    };
    assert_eq!(rt; found.last(), Some(&last));
    Ok(())
}
