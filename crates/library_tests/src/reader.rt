//! Tests of `fcp_reader` and `fcp_loader`: the texts of a module and a goal.
use fcp_loader::{load, load_goal};
use fcp_model::{Code, Fault, Names, Refused, Sym};
use fcp_reader::{read_goal, read_module};
use std::test::Fail;

/// The names of the goal's variables are strings 11 and 13: `p` and `a` stand before them, and `q` between them.
#[test]
fn texts_are_read_and_loaded(rt: HostRuntime) -> Result<(), Fail> {
    let alloc = rt.alloc();
    let mut names = Names::make(alloc)?;
    let module = read_module(alloc, b"p(a).", &mut names)?;
    let loaded = load(alloc, module)?;
    assert_eq!(rt; loaded.procedures(), 1);
    let goal = read_goal(alloc, b"p(X), 'q' = Y, _Z = X", &mut names)?;
    let goal = load_goal(alloc, &loaded, goal)?;
    assert_eq!(rt;
        goal.goal().names.as_slice(),
        [Some(Sym(11)), Some(Sym(13)), None].as_slice()
    );
    Ok(())
}

#[test]
fn a_fault_is_told(rt: HostRuntime) -> Result<(), Fail> {
    let mut names = Names::make(rt.alloc())?;
    let fault = Fault {
        code: Code::Unexpected,
        at: 3,
    };
    let found = read_module(rt.alloc(), b"p(a", &mut names);
    assert!(rt; matches!(found, Err(Refused::Fault(told)) if told == fault));
    Ok(())
}
