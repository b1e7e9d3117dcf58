//! What the last trial hands over to its caller.
ghost use Rattle.std.specs.Prelude.{◌≡◌, ◌<◌, ◌≤◌, length};
ghost use Rattle.std.specs.List.{concat};
ghost use Rattle.word_states.specs.Pieces.{process_words};
ghost use Rattle.try_desk.specs.Cuts.{cut, total};

use crate::machine::Machine;

impl Machine {
    /// The words that the trial read: each address below 4,000,000,000, in the order of the first loads, with its word.
    pub fn reads(&self) -> &[(u32, u64)]
        ensures { result.now ≡ self.now.trail.kept }
    {
        self.trail.kept_words()
    }

    /// The bindings of a commit: each place of the store that it binds, in the order in which they were bound, with the word to which
    /// it is bound.
    pub fn binds(&self) -> &[(u32, u64)]
        ensures { result.now ≡ self.now.binds.items }
    {
        self.binds.as_slice()
    }

    /// The places for which a process waits: the addresses of their words, each once.
    pub fn places(&self) -> &[u32]
        ensures { result.now ≡ self.now.waits }
    {
        self.waits.as_slice()
    }

    /// The number of the clause that commits, from 1; of a built-in process it is 0.
    pub fn clause(&self) -> u32
        ensures { result ≡ self.now.desk.clause }
    {
        self.desk.clause
    }

    /// The words of a commit's pieces, one piece after another, the first at 4,000,000,000.
    pub fn pieces(&self) -> &[u64]
        ensures words { result.now ≡ concat self.now.desk.pieces }
        ensures few { length result.now ≤ 268435455 }
    {
        self.desk.pieces.words()
    }

    /// How many words each of a commit's pieces has: by these sizes the words are cut into pieces.
    pub fn sizes(&self) -> &[u32]
        ensures cuts { cut (concat self.now.desk.pieces) result.now ≡ self.now.desk.pieces }
        ensures whole { total result.now ≡ length (concat self.now.desk.pieces) }
        ensures few { length result.now < 268435455 }
    {
        self.desk.pieces.sizes()
    }

    /// How many of a commit's pieces are processes, its children.
    pub fn children(&self) -> u32
        ensures { result ≡ length (process_words 4000000000 self.now.desk.pieces) }
    {
        self.desk.pieces.processes()
    }
}
