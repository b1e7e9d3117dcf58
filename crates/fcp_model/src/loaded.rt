ghost use Rattle.std.specs.Prelude.{◌≡◌, ◌<◌, ◌^◌, length, slice_get, Some, option_map, IfOk, position, All};
ghost use Rattle.std.specs.List.{list_any};
ghost use Rattle.fcp_model.specs.ProcedureNames.{procedure_names, same_procedure, positions_in, is_exported, same_export};

use crate::{Export, Module, NoMemory, ProcedureIndex, Seq, Sym};
use std::alloc::Global;
use std::marker::Model;

/// A procedure: its name with its number of arguments.
#[derive(Clone, Copy, Debug, PartialEq, Eq, Hash)]
pub struct ProcedureName {
    pub name: Sym,
    pub arity: u32,
}

/// A module with the index of its procedures, which are numbered from 0 in the order of their first clauses.
/// Contracts see the module.
#[derive(Drop)]
pub struct Loaded {
    module: Module,
    index: ProcedureIndex,
}

impl Model for Loaded {
    ghost use Rattle.fcp_model.specs.declared.source.Module.{Module};

    ghost Value = { Module };

    ghost use Rattle.fcp_model.specs.contracts.term.Term as term;
    ghost use Rattle.fcp_model.specs.contracts.term.Expr as expr;
    ghost use Rattle.std.specs.Coded.{codes};

    ghost coded = { Prim.hlevel (codes, term.the_row.coded, expr.the_row.coded) };

    ghost use Rattle.std.specs.Prelude.{◌≡◌};
    ghost use Rattle.fcp_model.specs.ProcedureNames.{procedures_of};

    ghost view = { λ l. l.module };

    ghost invariant = { λ l. l.index ≡ procedures_of l.module.clauses };
}

impl Loaded {
    /// The index of a module, in time linear in its clauses.
    pub fn index(alloc: Global, module: Module) -> Result<Loaded, NoMemory>
        requires fits { length «module».clauses < 2 ^ 32 }
        requires arity { All (λ c. length c.args < 2 ^ 32) «module».clauses }
        ensures { IfOk result (λ l. l ≡ «module») }
    {
        let index = ProcedureIndex::of(alloc, module.clauses.as_slice())?;
        Ok(Loaded { module, index })
    }

    /// The module.
    pub fn module(&self) -> &Module
        ensures { result.now ≡ self.now }
    {
        &self.module
    }

    /// The number of a procedure, from 0; `None` for one that has no clause.
    pub fn find(&self, name: Sym, arity: u32) -> Option<u32>
        ensures { result ≡ position (same_procedure (record { name = name; arity = arity })) (procedure_names self.now.clauses) }
    {
        self.index.find(name, arity)
    }

    /// The number of the procedure that a call with so many arguments names, as `find` gives it.
    pub(crate) fn find_called(&self, name: Sym, args: usize) -> Option<u32>
        ensures { result ≡ position (same_procedure (record { name = name; arity = args })) (procedure_names self.now.clauses) }
    {
        self.index.find_called(name, args)
    }

    /// How many procedures there are.
    pub fn procedures(&self) -> u32
        ensures { result ≡ length (procedure_names self.now.clauses) }
    {
        self.index.procedures()
    }

    /// The name of a procedure, with its number of arguments.
    pub fn name(&self, procedure: u32) -> ProcedureName
        requires { procedure < length (procedure_names self.now.clauses) }
        ensures { slice_get (procedure_names self.now.clauses) procedure ≡ Some result }
    {
        self.index.name(procedure)
    }

    /// Whether a procedure is exported.
    pub fn exported(&self, procedure: u32) -> bool
        requires { procedure < length (procedure_names self.now.clauses) }
        ensures { option_map (is_exported self.now) (slice_get (procedure_names self.now.clauses) procedure) ≡ Some result }
    {
        let name = self.name(procedure);
        match &self.module.exports {
            None => true,
            Some(exports) => lists(exports, name),
        }
    }

    /// The positions, from 0, of a procedure's clauses in the module, in the order of the text.
    pub fn clauses(&self, procedure: u32) -> &[u32]
        requires { procedure < length (procedure_names self.now.clauses) }
        ensures { slice_get (positions_in self.now.clauses) procedure ≡ Some result.now }
    {
        self.index.clauses(procedure)
    }
}

/// Whether a procedure is among the elements of the `-export`s.
fn lists(exports: &Seq<Export>, procedure: ProcedureName) -> bool
    ensures { result ≡ list_any (same_export procedure) exports.now }
{
    exports.as_slice().iter().any(|export| export.name == procedure.name
        && export.arity == procedure.arity)
}
