ghost use Rattle.std.specs.Prelude.{◌≡◌, ◌<◌, nat_eq, length, slice_get, option_map, Some, IfOk, OnErr};
ghost use Rattle.fcp_model.specs.NameList.{noted, number_of, reserved_names};
ghost use Rattle.fcp_model.specs.Spelling.{name_at};

use crate::NoMemory;
use indexmap::IndexSet;
use std::alloc::Global;
use std::hash::{BuildHasher, DefaultHasher, Hasher};
use std::marker::Model;

/// The number of a string: its position, from 0, in a list of `Names`.
#[derive(Clone, Copy, Debug, PartialEq, Eq, PartialOrd, Ord, Hash)]
pub struct Sym(pub u32);

impl Sym {
    /// Whether this is `true`, the first of the reserved names.
    pub fn is_true(self) -> bool
        ensures { result ≡ nat_eq self.0 0 }
    {
        self.0 == 0
    }
}

/// Hashes each string after a text that was hashed first. Whoever picks strings so that their hashes fall together has to know
/// that text, in which they stand themselves.
#[derive(Clone, Copy)]
struct AfterText {
    begun: DefaultHasher,
}

impl BuildHasher for AfterText {
    type Hasher = DefaultHasher;

    ghost build_hasher = { λ s. s.begun };

    fn build_hasher(&self) -> DefaultHasher {
        self.begun
    }
}

/// The strings of a module and a goal, numbered in order of first appearance. Contracts see the list of their bytes.
/// The nine reserved names come first.
#[derive(Drop)]
pub struct Names {
    texts: IndexSet<String, AfterText>,
    alloc: Global,
}

impl Model for Names {
    ghost use Rattle.std.specs.Prelude.{List, ℕ, map, ◌≤◌, ◌^◌, length};
    ghost use Rattle.std.specs.String.{string_bytes};

    ghost Value = { List (List ℕ) };

    ghost view = { λ n. map string_bytes n.texts.keys };

    ghost invariant = { λ n. length n.texts.keys ≤ 2 ^ 32 };
}

impl Names {
    /// The nine reserved names, as numbers 0 to 8.
    pub fn make(alloc: Global) -> Result<Names, NoMemory>
        ensures { IfOk result (λ n. n ≡ reserved_names) }
    {
        Names::for_text(alloc, &[])
    }

    /// The nine reserved names, as numbers 0 to 8, for the strings of a text. The text is hashed first, so that it is hard to
    /// fill it with strings whose hashes fall together; the list does not depend on it.
    pub fn for_text(alloc: Global, text: &[u8]) -> Result<Names, NoMemory>
        ensures { IfOk result (λ n. n ≡ reserved_names) }
    {
        let mut begun = DefaultHasher::new();
        begun.write(text);
        let mut names = Names {
            texts: IndexSet::with_hasher(alloc, AfterText { begun }),
            alloc,
        };
        names.note("true")?;
        names.note("otherwise")?;
        names.note("integer")?;
        names.note("string")?;
        names.note("constant")?;
        names.note("list")?;
        names.note("tuple")?;
        names.note("known")?;
        names.note("unknown")?;
        Ok(names)
    }

    /// The number of a text; a new text is appended. After `Err` the list is as before.
    pub fn note(&mut self, text: &str) -> Result<Sym, NoMemory>
        ensures list { IfOk result (λ s. self.new ≡ noted self.old text.now) }
        ensures number { IfOk result (λ s. s.0 ≡ number_of self.old text.now) }
        ensures err { OnErr result (self.new ≡ self.old) }
    {
        if let Some(at) = self.texts.get_index_of(text) {
            return Ok(Sym(at as u32));
        }
        if self.texts.len() > u32::MAX as usize {
            return Err(NoMemory);
        }
        let Ok(owned) = String::from_str(self.alloc, text) else {
            return Err(NoMemory);
        };
        let Ok((at, _)) = self.texts.insert_full(owned) else {
            return Err(NoMemory);
        };
        Ok(Sym(at as u32))
    }

    /// The text of a number that the list has.
    pub fn text(&self, sym: Sym) -> &str
        requires { sym.0 < length self.now }
        ensures { slice_get self.now sym.0 ≡ Some result.now }
    {
        self.texts[sym.0 as usize].as_str()
    }

    /// The text of a number, or `None` exactly where the list has no such number.
    pub fn get(&self, sym: Sym) -> Option<&str>
        ensures { option_map (λ text. text.now) result ≡ slice_get self.now sym.0 }
    {
        if (sym.0 as usize) < self.texts.len() {
            Some(self.text(sym))
        } else {
            None
        }
    }

    /// The text of a number, or the empty one where the list has no such number.
    pub fn text_or_empty(&self, sym: Sym) -> &str
        ensures { result.now ≡ name_at self.now sym.0 }
    {
        self.get(sym).unwrap_or("")
    }
}
