//! The first fault of a module or a goal, over all kinds.
ghost use Rattle.std.specs.Prelude.{◌≡◌};
ghost use Rattle.std.specs.Option.{option_to_list};
ghost use Rattle.fcp_loader.specs.Faults.{faults_at, faults_of, item_faults_of};
ghost use Rattle.fcp_loader.specs.Firsts.{first_of};

use crate::calls::{hidden_item, unknown_export, unknown_in_bodies, unknown_item};
use crate::first::earlier;
use crate::guards::{reserved_head, unknown_test};
use crate::leaves::{leaf_in_clauses, leaf_in_items};
use fcp_model::{Code, Fault, Item, Loaded};

/// The fault of a kind at a place, if there is one.
fn fault_at(code: Code, place: Option<u32>) -> Option<Fault>
    ensures { result ≡ first_of (faults_at code (option_to_list place)) }
{
    place.map(|at| Fault { code, at })
}

/// The first fault of a module.
pub fn fault_in_module(loaded: &Loaded) -> Option<Fault>
    ensures { result ≡ first_of (faults_of loaded.now) }
{
    let module = loaded.module();
    let clauses = module.clauses.as_slice();
    let names = earlier(
        fault_at(Code::UnknownAttribute, module.other),
        fault_at(Code::RepeatedModule, module.again),
    );
    let heads = earlier(names, reserved_head(clauses));
    let guards = earlier(heads, unknown_test(clauses));
    let bodies = earlier(guards, unknown_in_bodies(loaded));
    let exports = earlier(bodies, unknown_export(loaded));
    earlier(exports, leaf_in_clauses(clauses))
}

/// The first fault of a goal's items for a module.
pub fn fault_in_items(loaded: &Loaded, items: &[Item]) -> Option<Fault>
    ensures { result ≡ first_of (item_faults_of loaded.now items.now) }
{
    let calls = earlier(unknown_item(loaded, items), leaf_in_items(items));
    earlier(calls, hidden_item(loaded, items))
}
