//! Laws of what a commit does to bindings. The function does nothing: its contract is the law.
#![tactic(auto)]

ghost use Rattle.binding_laws.specs.Laws.{ACommitKeepsBindings};

/// A commit keeps a state's bindings without a cycle and over its places, and its children mention places alone.
pub fn commits_keep_bindings()
    ensures { ACommitKeepsBindings }
{}
