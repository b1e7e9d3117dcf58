//! A stack. Contracts see it as a list with its newest item first.
ghost use Rattle.std.specs.Prelude.{◌≡◌, [], ◌∷◌, ◌++◌, OnOk, MatchOption};
ghost use Rattle.std.specs.Option.{option_copied};
ghost use Rattle.fcp_grammar.specs.Values.{first, is_empty};

use fcp_model::NoMemory;
use std::alloc::Global;
use std::marker::Model;

/// Items of which the last that came is the first that goes.
#[derive(Debug)]
pub struct Stack<T> {
    items: Vec<T>,
}

impl<T: Drop> Drop for Stack<T> {
    fn drop(self) {
        let Stack { items: _ } = self;
    }
}

impl<T> Model for Stack<T> {
    ghost use Rattle.std.specs.Prelude.{List, reverse};
    ghost use Rattle.std.specs.Coded.{coded_list};

    ghost Value = { List T };

    ghost coded = { coded_list T.code };

    ghost view = { λ s. reverse s.items.items };
}

impl<T: Drop> Stack<T> {
    /// No item.
    pub fn empty(alloc: Global) -> Stack<T>
        ensures { result ≡ [] }
    {
        Stack {
            items: Vec::new(alloc),
        }
    }

    /// One item more. Where memory runs out the item is lost.
    pub fn push(&mut self, item: T) -> Result<(), NoMemory>
        ensures { OnOk result (self.new ≡ item ∷ self.old) }
    {
        match self.items.push(item) {
            Ok(()) => Ok(()),
            Err(_) => Err(NoMemory),
        }
    }

    /// Takes the newest item away, or is `None` where there is none.
    pub fn pop(&mut self) -> Option<T>
        ensures { MatchOption result ((self.old ≡ []) × (self.new ≡ [])) (λ x. self.old ≡ x ∷ self.new) }
    {
        self.items.pop()
    }

    /// The newest item, or `None`.
    pub fn top(&self) -> Option<&T>
        ensures { option_copied result ≡ first self.now }
    {
        self.items.last()
    }

    /// Whether there is no item.
    pub fn is_empty(&self) -> bool
        ensures { result ≡ is_empty self.now }
    {
        self.items.is_empty()
    }
}
