//! The report of a run, made from its log: each entry is made again, and its line is written.
#![tactic(auto)]

mod draft;
mod ends;
mod making;
mod run_texts;
mod snapshots;

pub use run_texts::{bindings_text, report, snapshot_text};
