//! Heads that are reserved, and items of guards that are no tests.
ghost use Rattle.std.specs.Prelude.{◌≡◌, not};
ghost use Rattle.fcp_loader.specs.Faults.{faults_at, places_where, reserved_heads, unknown_tests};
ghost use Rattle.fcp_loader.specs.Firsts.{first_of};
ghost use Rattle.fcp_loader.specs.TestItems as spec;

use crate::first::{earlier, fault_if};
use fcp_model::{Call, Clause, Code, Fault, Item, Sym};

/// Whether a name is reserved with so many arguments.
fn is_reserved(name: Sym, arity: usize) -> bool
    ensures { result ≡ spec.is_reserved (record { name = name; arity = arity }) }
{
    (name.0 < 2 && arity == 0) || (2 <= name.0 && name.0 < 9 && arity == 1)
}

/// Whether a call is a test.
fn is_test(call: &Call) -> bool
    ensures { result ≡ spec.is_test call.now }
{
    match call {
        Call::User { name, args } => is_reserved(*name, args.len()),
        Call::Same(_, _) | Call::NotSame(_, _) | Call::Compare(_, _, _) => true,
        Call::Unify(_, _) | Call::Assign(_, _) => false,
    }
}

/// The first clause whose head is reserved.
pub fn reserved_head(clauses: &[Clause]) -> Option<Fault>
    ensures { result ≡ first_of (faults_at Code.Reserved (reserved_heads clauses.now)) }
{
    let mut first = None;
    for clause in clauses {
        let is_reserved = is_reserved(clause.head, clause.args.len());
        first = earlier(first, fault_if(is_reserved, Code::Reserved, clause.at));
    }
    first
}

/// The first item of a guard that is no test.
fn unknown_item(items: &[Item]) -> Option<Fault>
    ensures { result ≡ first_of (faults_at Code.UnknownTest (places_where (λ i. not (spec.is_test i.call)) items.now)) }
{
    let mut first = None;
    for item in items {
        let is_unknown = !is_test(&item.call);
        first = earlier(first, fault_if(is_unknown, Code::UnknownTest, item.at));
    }
    first
}

/// The first such item of the guards.
pub fn unknown_test(clauses: &[Clause]) -> Option<Fault>
    ensures { result ≡ first_of (faults_at Code.UnknownTest (unknown_tests clauses.now)) }
{
    let mut first = None;
    for clause in clauses {
        let guard = clause.guard.as_slice();
        first = earlier(first, unknown_item(guard));
    }
    first
}
