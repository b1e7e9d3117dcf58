//! The code of a module.
ghost use Rattle.std.specs.Prelude.{◌≡◌, option_map, map, take, drop, slice_get};
ghost use Rattle.std.specs.Option.{option_copied};
ghost use Rattle.machine_code.specs.Compiling.{tables, entrance_of, name_said, name_kept, clause_at};
ghost use Rattle.machine_code.specs.Sound.{IsSound};

use crate::Instr;
use fcp_model::{ProcedureName, Sym};
use heap_words::ExprStep;
use indexmap::IndexSet;
use std::marker::Model;

/// The number of a clause's variables, and the cells of a commit by it.
#[derive(Clone, Copy, Debug, PartialEq, Eq)]
pub struct ClauseSize {
    pub vars: u8,
    pub cells: u32,
}

/// A procedure in code: where its first instruction stands, and what is known of its clauses.
#[derive(Drop)]
pub struct Procedure {
    pub name: ProcedureName,
    pub first: u32,
    pub clauses: Vec<ClauseSize>,
}

/// The code of a module: its instructions, the steps and Smalls that they name, and its procedures by number.
#[derive(Drop)]
pub struct Code {
    instrs: Vec<Instr>,
    steps: Vec<ExprStep>,
    smalls: IndexSet<u64>,
    procedures: Vec<Procedure>,
    slots: u32,
}

impl Model for Code {
    ghost use Rattle.machine_code.specs.Compiling.{Tables, tables};
    ghost use Rattle.machine_code.specs.Sound.{IsSound};

    ghost Value = { Tables };

    ghost view = { λ c. tables c.instrs.items c.steps.items c.smalls.keys c.procedures.items c.slots };

    ghost invariant = { λ c. IsSound (tables c.instrs.items c.steps.items c.smalls.keys c.procedures.items c.slots) };
}

impl Code {
    /// The code of such lists.
    pub fn of(
        instrs: Vec<Instr>,
        steps: Vec<ExprStep>,
        smalls: IndexSet<u64>,
        procedures: Vec<Procedure>,
        slots: u32,
    ) -> Code
        requires { IsSound (tables instrs.items steps.items smalls.keys procedures.items slots) }
        ensures { result ≡ tables instrs.items steps.items smalls.keys procedures.items slots }
    {
        Code {
            instrs,
            steps,
            smalls,
            procedures,
            slots,
        }
    }

    /// The instruction at a position from 0.
    pub fn instr(&self, at: u32) -> Option<&Instr>
        ensures { option_copied result ≡ slice_get self.now.instrs at }
    {
        self.instrs.get(at as usize)
    }

    /// The position of a procedure's first instruction.
    pub fn first(&self, procedure: u32) -> Option<u32>
        ensures { result ≡ option_map (λ e. e.first) (slice_get self.now.procedures procedure) }
    {
        self.procedures
            .get(procedure as usize)
            .map(|found| found.first)
    }

    /// A procedure's name and number of arguments.
    pub fn name(&self, procedure: u32) -> Option<(Sym, u32)>
        ensures { option_map name_said result ≡ option_map name_kept (slice_get self.now.procedures procedure) }
    {
        self.procedures
            .get(procedure as usize)
            .map(|found| (found.name.name, found.name.arity))
    }

    /// The step at a position of the table from 0.
    pub fn step(&self, at: u32) -> Option<ExprStep>
        ensures { result ≡ slice_get self.now.steps at }
    {
        self.steps.get(at as usize).copied()
    }

    /// The Small of a number from 0.
    pub fn small(&self, at: u32) -> Option<u64>
        ensures { result ≡ slice_get self.now.smalls at }
    {
        self.smalls.get_index(at as usize).copied()
    }

    /// The cells of a commit by a procedure's clause of a number from 1.
    pub fn cells(&self, procedure: u32, clause: u32) -> Option<u32>
        ensures { result ≡ option_map (λ c. c.cells) (clause_at self.now.procedures procedure clause) }
    {
        self.clause(procedure, clause).map(|found| found.cells)
    }

    /// The number of variables of a procedure's clause of a number from 1.
    pub fn vars(&self, procedure: u32, clause: u32) -> Option<u8>
        ensures { result ≡ option_map (λ c. c.vars) (clause_at self.now.procedures procedure clause) }
    {
        self.clause(procedure, clause).map(|found| found.vars)
    }

    /// What is known of a procedure's clause of a number from 1.
    fn clause(&self, procedure: u32, clause: u32) -> Option<ClauseSize>
        ensures { result ≡ clause_at self.now.procedures procedure clause }
    {
        let found = self.procedures.get(procedure as usize)?;
        if clause == 0 {
            return None;
        }
        found.clauses.get(clause as usize - 1).copied()
    }

    /// So many steps of the table from a position on; fewer where it ends before.
    pub(crate) fn steps(&self, from: u32, len: u16) -> &[ExprStep]
        ensures { result.now ≡ take len (drop from self.now.steps) }
    {
        let start = self.steps.len().min(from as usize);
        let end = self.steps.len().min(start + len as usize);
        &self.steps[start..end]
    }

    /// The procedures by number.
    pub(crate) fn procedures(&self) -> &[Procedure]
        ensures { map entrance_of result.now ≡ self.now.procedures }
    {
        self.procedures.as_slice()
    }

    /// The instructions.
    pub(crate) fn instrs(&self) -> &[Instr]
        ensures { result.now ≡ self.now.instrs }
    {
        self.instrs.as_slice()
    }

    /// All code is sound. This does nothing: its contract is the law.
    pub fn sound(&self)
        ensures { IsSound self.now }
    {
        let _ = &self.slots;
    }

    /// A number above that of each slot that the code names.
    pub fn slots(&self) -> u32
        ensures { result ≡ self.now.slots }
    {
        self.slots
    }
}
