//! Tests of `clause_compiler` and `machine_code`: the code of clauses and its listing, and clauses at the limits of the language.
use clause_compiler::{Code, compile};
use fcp_loader::load;
use fcp_model::Names;
use fcp_reader::read_module;
use machine_code::listing;
use std::alloc::Global;
use std::test::Fail;

/// A nested head, tests, an expression, and a number that is wider than a Small.
const CLAUSES: &str = "merge([X|Xs],Ys,[X|Zs]) :- merge(Xs?,Ys,Zs).
merge([],Ys,Ys).
h(f(N),M) :- integer(N), N =< 9, otherwise | M := (N - 1) * 2.
w(72057594037927936,72057594037927936).
";

const LISTING: &str = "merge/3 at 0
h/2 at 32
w/2 at 58
0 Try clause=1 next=24
1 GetCons slot=0 left=3 right=4 put=5
2 GetFirst slot=3 X1
3 GetFirst slot=4 X2
4 Jump to=9
5 PutVar slot=4 X1
6 PutVar slot=5 X2
7 PutCons slot=3 left=4 right=5
8 Unify left=0 right=3
9 GetFirst slot=1 X3
10 GetCons slot=2 left=3 right=4 put=15
11 PutVar slot=5 X1
12 Unify left=3 right=5
13 GetFirst slot=4 X4
14 Jump to=19
15 PutVar slot=4 X1
16 PutVar slot=5 X4
17 PutCons slot=3 left=4 right=5
18 Unify left=2 right=3
19 PutVar slot=3 X2?
20 PutVar slot=4 X3
21 PutVar slot=5 X4
22 Spawn merge/3 first=3 parts=3
23 Commit
24 Try clause=2 next=31
25 PutWord slot=3 []
26 Unify left=0 right=3
27 GetFirst slot=1 X1
28 PutVar slot=3 X1
29 Unify left=2 right=3
30 Commit
31 Jump to=4294967295
32 Try clause=1 next=57
33 GetTuple slot=0 first=2 parts=2 put=38
34 PutWord slot=4 f
35 Unify left=2 right=4
36 GetFirst slot=3 X1
37 Jump to=42
38 PutWord slot=3 f
39 PutVar slot=4 X1
40 PutTuple slot=2 first=3 parts=2
41 Unify left=0 right=2
42 GetFirst slot=1 X2
43 PutVar slot=2 X1
44 Test integer left 2
45 PutVar slot=2 X1
46 PutWord slot=3 9
47 Test =< left 2 right 3
48 Otherwise
49 PutVar slot=2 X2
50 PutVar slot=6 X1
51 PutWord slot=7 1
52 PutTuple slot=4 first=6 parts=2 op=-
53 PutWord slot=5 2
54 PutTuple slot=3 first=4 parts=2 op=*
55 Spawn :=/2 first=2 parts=2
56 Commit
57 Jump to=4294967295
58 Try clause=1 next=64
59 PutWord slot=2 small=0 high=1
60 Unify left=0 right=2
61 PutWord slot=2 small=0 high=1
62 Unify left=1 right=2
63 Commit
64 Jump to=4294967295
";

/// The code of a module's text.
fn code_of(alloc: Global, text: &[u8], names: &mut Names) -> Result<Code, Fail> {
    if text.len() > 1_048_576 {
        return Err("a long text".into());
    }
    let module = read_module(alloc, text, names)?;
    let loaded = load(alloc, module)?;
    Ok(compile(alloc, &loaded)?)
}

/// Whether the code of a module's text has this listing.
fn is_listed(alloc: Global, text: &[u8], lines: &[u8]) -> Result<bool, Fail> {
    let mut names = Names::make(alloc)?;
    let code = code_of(alloc, text, &mut names)?;
    let mut found = Vec::new(alloc);
    listing(&mut found, &names, &code)?;
    Ok(found.as_slice() == lines)
}

/// How many instructions code has, up to four million.
fn count(code: &Code) -> u32 {
    for at in 0..4_000_000 {
        if code.instr(at).is_none() {
            return at;
        }
    }
    4_000_000
}

/// How many instructions a clause's text has.
fn size_of(alloc: Global, text: &[u8]) -> Result<u32, Fail> {
    let mut names = Names::make(alloc)?;
    let code = code_of(alloc, text, &mut names)?;
    Ok(count(&code))
}

/// A text with some part many times after a beginning.
fn repeated(alloc: Global, first: &[u8], part: &[u8], times: u32) -> Result<Vec<u8>, Fail> {
    let mut text = Vec::from_slice(alloc, first)?;
    for _ in 0..times {
        text.extend_from_slice(part)?;
    }
    Ok(text)
}

/// How many instructions a clause has that is a beginning, some part many times, and an end.
fn size_with(
    alloc: Global,
    first: &[u8],
    part: &[u8],
    times: u32,
    last: &[u8],
) -> Result<u32, Fail> {
    let mut text = repeated(alloc, first, part, times)?;
    text.extend_from_slice(last)?;
    size_of(alloc, text.as_slice())
}

/// A fact with a list of 250 variables.
fn many_variables(alloc: Global) -> Result<Vec<u8>, Fail> {
    let mut text = Vec::from_slice(alloc, b"p([")?;
    let mut name = Vec::new(alloc);
    for _ in 0..250 {
        name.push(b'X')?;
        text.extend_from_slice(name.as_slice())?;
        text.push(b',')?;
    }
    text.extend_from_slice(b"a]).")?;
    Ok(text)
}

#[test]
fn clauses_have_their_listing(rt: HostRuntime) -> Result<(), Fail> {
    assert!(rt; is_listed(rt.alloc(), CLAUSES.as_bytes(), LISTING.as_bytes())?);
    Ok(())
}

/// 64 arguments, 256 items, 256 operators, 256 brackets deep and 250 variables: the code is as long as the parts, with three
/// instructions besides: `Try`, `Commit` and the end of the trial.
#[test]
fn clauses_at_the_limits(rt: HostRuntime) -> Result<(), Fail> {
    assert_eq!(rt;
        size_with(rt.alloc(), b"p(a", b",a", 63, b").")?,
        3 + 64 * 2
    );
    assert_eq!(rt;
        size_with(rt.alloc(), b"p(f(a", b",a", 63, b")).")?,
        3 + 65 + 1 + 1 + 65 + 1 + 1
    );
    assert_eq!(rt;
        size_with(rt.alloc(), b"p :- p", b",p", 255, b".")?,
        3 + 256
    );
    assert_eq!(rt;
        size_with(rt.alloc(), b"p(X) :- X := 1", b"+1", 256, b".")?,
        3 + 2 + 257 + 256 + 1
    );
    let mut last = repeated(rt.alloc(), b"", b"]", 255)?;
    last.extend_from_slice(b").")?;
    assert_eq!(rt;
        size_with(rt.alloc(), b"p(", b"[", 255, last.as_slice())?,
        3 + 6 * 254 + 2
    );
    Ok(())
}

#[test]
fn a_clause_of_250_variables(rt: HostRuntime) -> Result<(), Fail> {
    let text = many_variables(rt.alloc())?;
    assert_eq!(rt; size_of(rt.alloc(), text.as_slice())?, 3 + 6 * 251 + 2);
    Ok(())
}

/// A list is walked in loops, and its code grows with its length alone: for each of 500,000 elements two instructions that put and
/// four that open.
#[test]
fn a_long_head(rt: HostRuntime) -> Result<(), Fail> {
    assert_eq!(rt;
        size_with(rt.alloc(), b"p([a", b",a", 499_999, b"]).")?,
        3_000_005
    );
    Ok(())
}
