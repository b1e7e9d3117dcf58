// What a seat keeps of its entries: of each what the log keeps, and its number in four bytes.
ghost use Rattle.std.specs.Prelude.{◌≡◌, ◌+◌, ◌<◌, ◌≤◌, [], ◌∷◌, ◌++◌, vec_len, vec_capacity, IfOk};

use std::alloc::{AllocError, Global};

#[derive(Drop)]
pub(crate) struct Journal<L> {
    pub(crate) entries: Vec<L>,
    pub(crate) numbers: Vec<u32>,
    ghost paired: { vec_len entries ≡ vec_len numbers },
}

impl<L> Journal<L> {
    /// An empty journal with room for so many entries.
    pub(crate) fn with_room(alloc: Global, room: usize) -> Result<Journal<L>, AllocError>
        ensures items { IfOk result (λ j. (j.entries.items ≡ []) × (j.numbers.items ≡ [])) }
        ensures room { IfOk result (λ j. (vec_len j.entries ≡ 0) × (room ≤ vec_capacity j.entries) × (room ≤ vec_capacity j.numbers)) }
    {
        let numbers = Vec::with_capacity(alloc, room)?;
        let entries = Vec::with_capacity(alloc, room)?;
        Ok(Journal { entries, numbers })
    }

    /// Appends an entry, for which there is room.
    pub(crate) fn push(&mut self, number: u32, entry: L)
        requires room { (vec_len self.old.entries < vec_capacity self.old.entries)
            × (vec_len self.old.entries < vec_capacity self.old.numbers) }
        ensures entries { self.new.entries.items ≡ self.old.entries.items ++ entry ∷ [] }
        ensures numbers { self.new.numbers.items ≡ self.old.numbers.items ++ number ∷ [] }
        ensures len { vec_len self.new.entries ≡ vec_len self.old.entries + 1 }
        ensures room { (vec_capacity self.new.entries ≡ vec_capacity self.old.entries)
            × (vec_capacity self.new.numbers ≡ vec_capacity self.old.numbers) }
    {
        self.numbers.push_reserved(number);
        self.entries.push_reserved(entry);
    }

    /// Takes in the entries of another journal, for which there is room.
    pub(crate) fn append(&mut self, other: Journal<L>)
        requires room { (vec_len self.old.entries + vec_len other.entries ≤ vec_capacity self.old.entries)
            × (vec_len self.old.entries + vec_len other.entries ≤ vec_capacity self.old.numbers) }
        ensures entries { self.new.entries.items ≡ self.old.entries.items ++ other.entries.items }
        ensures numbers { self.new.numbers.items ≡ self.old.numbers.items ++ other.numbers.items }
        ensures len { vec_len self.new.entries ≡ vec_len self.old.entries + vec_len other.entries }
        ensures room { (vec_capacity self.old.entries ≤ vec_capacity self.new.entries)
            × (vec_capacity self.old.numbers ≤ vec_capacity self.new.numbers) }
    {
        let Journal { entries, numbers } = other;
        move_all(&mut self.entries, entries);
        move_all(&mut self.numbers, numbers);
    }

    /// The entries alone.
    pub(crate) fn into_entries(self) -> Vec<L>
        ensures { result.items ≡ self.entries.items }
    {
        let Journal {
            entries,
            numbers: _,
        } = self;
        entries
    }

    /// How many entries there are.
    pub(crate) fn len(&self) -> usize
        ensures { result ≡ vec_len self.now.entries }
    {
        self.entries.len()
    }
}

/// Moves the elements of a vector to the end of another, which has room for them.
fn move_all<T>(to: &mut Vec<T>, from: Vec<T>)
    requires { vec_len to.old + vec_len from ≤ vec_capacity to.old }
    ensures items { to.new.items ≡ to.old.items ++ from.items }
    ensures len { vec_len to.new ≡ vec_len to.old + vec_len from }
    ensures room { vec_capacity to.old ≤ vec_capacity to.new }
{
    let mut from = from;
    let _ = to.append(&mut from);
    from.destroy_empty();
}
