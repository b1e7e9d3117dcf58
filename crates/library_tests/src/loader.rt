//! Tests of `fcp_loader`.
use fcp_loader::load;
use fcp_model::{Clause, Code, Fault, Module, Refused, Seq, Sym};
use std::alloc::Global;
use std::test::Fail;

/// A clause `true.` at a place.
fn reserved(alloc: Global, at: u32) -> Clause {
    Clause {
        at,
        head: Sym(0),
        args: Seq::empty(alloc),
        guard: Seq::empty(alloc),
        body: Seq::empty(alloc),
        vars: 0,
    }
}

/// No text has the places of its clauses fall, so the module is made by hand.
#[test]
fn the_least_place_is_told(rt: HostRuntime) -> Result<(), Fail> {
    let alloc = rt.alloc();
    let clauses = Seq::empty(alloc).with(reserved(alloc, 9))?;
    let module = Module {
        name: None,
        again: None,
        other: None,
        exports: None,
        clauses: clauses.with(reserved(alloc, 4))?,
    };
    let least = Fault {
        code: Code::Reserved,
        at: 4,
    };
    assert!(rt; matches!(load(alloc, module), Err(Refused::Fault(told)) if told == least));
    Ok(())
}
