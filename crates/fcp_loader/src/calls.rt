//! Items that call no procedure of the module, or a hidden one, and exports of none.
ghost use Rattle.std.specs.Prelude.{◌≡◌, map, filter};
ghost use Rattle.fcp_loader.specs.Faults as spec;
ghost use Rattle.fcp_loader.specs.Faults.{faults_at};
ghost use Rattle.fcp_loader.specs.Firsts.{first_of};

use crate::first::{earlier, fault_if};
use fcp_model::{Call, Code, Export, Fault, Item, Loaded, number_of};

/// The first of some items that calls nothing that a body or a goal may call.
pub fn unknown_item(loaded: &Loaded, items: &[Item]) -> Option<Fault>
    ensures { result ≡ first_of (faults_at Code.UnknownProcedure (spec.unknown_items loaded.now items.now)) }
{
    let mut first = None;
    for item in items {
        let is_unknown = number_of(loaded, &item.call).is_none();
        first = earlier(first, fault_if(is_unknown, Code::UnknownProcedure, item.at));
    }
    first
}

/// The first such item of a body.
pub fn unknown_in_bodies(loaded: &Loaded) -> Option<Fault>
    ensures { result ≡ first_of (faults_at Code.UnknownProcedure (spec.unknown_in_bodies loaded.now)) }
{
    let clauses = loaded.module().clauses.as_slice();
    let mut first = None;
    for clause in clauses {
        let body = clause.body.as_slice();
        first = earlier(first, unknown_item(loaded, body));
    }
    first
}

/// The first of some elements of an `-export` that names no procedure.
fn unknown_of(loaded: &Loaded, exports: &[Export]) -> Option<Fault>
    ensures { result ≡ first_of (faults_at Code.ExportUnknown (map (λ e. e.at) (filter (spec.is_unknown_export loaded.now) exports.now))) }
{
    exports
        .iter()
        .filter(|export| loaded.find(export.name, export.arity).is_none())
        .map(|export| export.at)
        .map(|at| Fault {
            code: Code::ExportUnknown,
            at,
        })
        .fold(None, |first, fault| earlier(first, Some(fault)))
}

/// The first element of the module's `-export`s that names no procedure.
pub fn unknown_export(loaded: &Loaded) -> Option<Fault>
    ensures { result ≡ first_of (faults_at Code.ExportUnknown (spec.unknown_exports loaded.now)) }
{
    match &loaded.module().exports {
        Some(exports) => unknown_of(loaded, exports.as_slice()),
        None => None,
    }
}

/// Whether a call is of a procedure that is not exported.
fn is_hidden(loaded: &Loaded, call: &Call) -> bool
    ensures { result ≡ spec.is_hidden loaded.now call.now }
{
    match call {
        Call::User { name, args } if name.0 == 0 && args.len() == 0 => false,
        Call::User { name: _, args: _ } => match number_of(loaded, call) {
            Some(procedure) => !loaded.exported(procedure),
            None => false,
        },
        _ => false,
    }
}

/// The first of some items that calls a procedure that is not exported.
pub fn hidden_item(loaded: &Loaded, items: &[Item]) -> Option<Fault>
    ensures { result ≡ first_of (faults_at Code.NotExported (spec.places_where (λ i. spec.is_hidden loaded.now i.call) items.now)) }
{
    let mut first = None;
    for item in items {
        let is_hidden = is_hidden(loaded, &item.call);
        first = earlier(first, fault_if(is_hidden, Code::NotExported, item.at));
    }
    first
}
