ghost use Rattle.std.specs.Prelude.{◌≡◌, ◌<◌, ◌^◌, length, slice_get, Some, map, IfOk, OnOk, position, All};
ghost use Rattle.indexmap.specs.IndexSet.{insert_key};
ghost use Rattle.fcp_model.specs.ProcedureNames.{procedure_name, same_procedure, with_position, procedures_of};

use crate::{Clause, NoMemory, ProcedureName, Sym};
use indexmap::IndexSet;
use std::alloc::Global;
use std::marker::Model;

/// The procedures of some clauses, numbered from 0 in the order of their first clauses, with the positions of each one's
/// clauses. Contracts see the procedures and the lists of positions.
#[derive(Drop)]
pub struct ProcedureIndex {
    names: IndexSet<ProcedureName>,
    positions: Vec<Vec<u32>>,
}

impl Model for ProcedureIndex {
    ghost use Rattle.std.specs.Prelude.{map};
    ghost use Rattle.fcp_model.specs.ProcedureNames.{Procedures, AreNumbered};

    ghost Value = { Procedures };

    ghost view = { λ i. record { names = i.names.keys; positions = map (λ v. v.items) i.positions.items } };

    ghost invariant = { λ i. AreNumbered (record { names = i.names.keys; positions = map (λ v. v.items) i.positions.items }) };
}

impl ProcedureIndex {
    /// The index of some clauses, in time linear in their number. The clauses are looked at and not kept.
    pub fn of(alloc: Global, clauses: &[Clause]) -> Result<ProcedureIndex, NoMemory>
        requires fits { length clauses.now < 2 ^ 32 }
        requires arity { All (λ c. length c.args < 2 ^ 32) clauses.now }
        ensures { IfOk result (λ i. i ≡ procedures_of clauses.now) }
    {
        let mut names = IndexSet::new(alloc);
        let mut positions = Vec::new(alloc);
        for (at, clause) in clauses.iter().enumerate() {
            note_clause(alloc, &mut names, &mut positions, clause, at as u32)?;
        }
        Ok(ProcedureIndex { names, positions })
    }

    /// The number of a procedure, from 0; `None` for one that has no clause.
    pub fn find(&self, name: Sym, arity: u32) -> Option<u32>
        ensures { result ≡ position (same_procedure (record { name = name; arity = arity })) self.now.names }
    {
        self.find_called(name, arity as usize)
    }

    /// The number of the procedure that a call with so many arguments names, as `find` gives it.
    pub fn find_called(&self, name: Sym, args: usize) -> Option<u32>
        ensures { result ≡ position (same_procedure (record { name = name; arity = args })) self.now.names }
    {
        let names = &self.names;
        let Ok(arity) = u32::try_from(args) else {
            return None;
        };
        match names.get_index_of(&ProcedureName { name, arity }) {
            Some(at) => Some(at as u32),
            None => None,
        }
    }

    /// How many procedures there are.
    pub fn procedures(&self) -> u32
        ensures { result ≡ length self.now.names }
    {
        self.names.len() as u32
    }

    /// The name of a procedure, with its number of arguments.
    pub fn name(&self, procedure: u32) -> ProcedureName
        requires { procedure < length self.now.names }
        ensures { slice_get self.now.names procedure ≡ Some result }
    {
        self.names[procedure as usize]
    }

    /// The positions, from 0, of a procedure's clauses among the clauses, in their order.
    pub fn clauses(&self, procedure: u32) -> &[u32]
        requires { procedure < length self.now.names }
        ensures { slice_get self.now.positions procedure ≡ Some result.now }
    {
        self.positions[procedure as usize].as_slice()
    }
}

/// Notes the clause at a position: its procedure, put last where it is a new one, and the position there.
fn note_clause(
    alloc: Global,
    names: &mut IndexSet<ProcedureName>,
    positions: &mut Vec<Vec<u32>>,
    clause: &Clause,
    at: u32,
) -> Result<(), NoMemory>
    requires arity { length clause.now.args < 2 ^ 32 }
    requires kept { length names.old.keys ≡ length positions.old.items }
    ensures names { OnOk result (names.new.keys ≡ insert_key same_procedure names.old.keys (procedure_name clause.now)) }
    ensures positions { OnOk result (map (λ v. v.items) positions.new.items
        ≡ with_position names.old.keys (procedure_name clause.now) at (map (λ v. v.items) positions.old.items)) }
{
    let name = ProcedureName {
        name: clause.head,
        arity: clause.args.len() as u32,
    };
    let Ok((number, is_new)) = names.insert_full(name) else {
        return Err(NoMemory);
    };
    if is_new {
        let Ok(()) = positions.push(Vec::new(alloc)) else {
            return Err(NoMemory);
        };
    }
    match positions[number].push(at) {
        Ok(()) => Ok(()),
        Err(_) => Err(NoMemory),
    }
}
