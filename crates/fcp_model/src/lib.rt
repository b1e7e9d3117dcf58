//! The types of Flat Concurrent Prolog and the definitions of its runs, on which every other crate stands.
#![tactic(auto)]

mod fault;
mod goal;
mod loaded;
pub mod log_lines;
mod memory;
mod names;
mod procedure_index;
mod run;
mod seq;
mod source;
pub mod spelling;
mod term;
mod text;

pub use fault::{Code, Fault, Refused};
pub use goal::{ASSIGN_PROCEDURE, LoadedGoal, TRUE_PROCEDURE, UNIFY_PROCEDURE, number_of};
pub use loaded::{Loaded, ProcedureName};
pub use memory::NoMemory;
pub use names::{Names, Sym};
pub use procedure_index::ProcedureIndex;
pub use run::{Act, Control, Entry, Limits, Outcome, Place, Proc, Run};
pub use seq::Seq;
pub use source::{Call, Clause, Export, GoalText, Item, Module};
pub use term::{ArithOp, CompareOp, Expr, Term};
pub use text::Text;
