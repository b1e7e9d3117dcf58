//! Places by their addresses, each once.
ghost use Rattle.std.specs.Prelude.{◌≡◌, ◌⊎◌, ◌↔◌, [], ℕ, MatchResult};
ghost use Rattle.word_states.specs.Words.{IsIn, AreDistinct};

use fcp_model::NoMemory;
use indexmap::IndexSet;
use std::alloc::Global;
use std::marker::Model;

/// Addresses of places, each once, in the order in which they were noted.
#[derive(Drop)]
pub struct Places {
    addresses: IndexSet<u32>,
}

impl Model for Places {
    ghost use Rattle.std.specs.Prelude.{ℕ, List};

    ghost Value = { List ℕ };

    ghost view = { λ p. p.addresses.keys };
}

impl Places {
    /// No places. It takes no memory.
    pub fn make(alloc: Global) -> Places
        ensures { result ≡ [] }
    {
        Places {
            addresses: IndexSet::new(alloc),
        }
    }

    /// Forgets all places, and keeps the memory for others.
    pub fn clear(&mut self)
        ensures { self.new ≡ [] }
    {
        self.addresses.clear();
    }

    /// Notes a place, if it was not noted before. Where memory runs out, the places stay as they were.
    pub fn note(&mut self, place: u32) -> Result<(), NoMemory>
        ensures { MatchResult result (λ _. (a : ℕ) → IsIn a self.new ↔ (IsIn a self.old ⊎ (a ≡ place))) (λ _. self.new ≡ self.old) }
    {
        match self.addresses.insert(place) {
            Ok(_) => Ok(()),
            Err(_) => Err(NoMemory),
        }
    }

    /// The places, in the order in which they were noted.
    pub fn as_slice(&self) -> &[u32]
        ensures places { result.now ≡ self.now }
        ensures distinct { AreDistinct self.now }
    {
        self.addresses.as_slice()
    }
}
