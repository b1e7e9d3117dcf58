//! What generic code asks of words that it loads.
ghost use Rattle.std.specs.Prelude.{◌≡◌, ◌≤◌, ℕ, Option, Some};
ghost use Rattle.heap_words.specs.WordsLaws.{WordsLaws};

/// Addresses from here on are those of a try's own words.
pub const OWN: u32 = 4_000_000_000;

/// Words that can be loaded by their addresses, from 0. Between two loads others may write words that are not final.
/// The trait and its laws are complete: what a crate above needs of words, it takes from them.
pub trait Words {
    // How many addresses there are.
    ghost addresses: { Self → ℕ };

    // The words fit together.
    ghost sound: { Self → Type 0 };

    // The known addresses, which alone may be loaded.
    ghost knows: { Self → ℕ → Type 0 };

    // Some load until now gave this word at this address.
    ghost had: { Self → ℕ → ℕ → Type 0 };

    // The word refers only to known addresses, also together with all words that were or will be loaded.
    ghost leads: { Self → ℕ → Type 0 };

    // The words from 4,000,000,000 on, which are those of a try alone.
    ghost own: { Self → ℕ → Option ℕ };

    // The final words that are shown.
    ghost shown: { Self → ℕ → Option ℕ };

    // Only loads lie between the two.
    ghost later: { Self → Self → Type 0 };

    // A load between the two gave this word at this address.
    ghost gave: { Self → Self → ℕ → ℕ → Type 0 };

    // One load lies between the two, and it gave this word at this address. So a contract can name the first load of a call.
    ghost once: { Self → Self → ℕ → ℕ → Type 0 };

    /// The word at a known address.
    fn load(&mut self, addr: u32) -> u64
        requires sound { sound self.old }
        requires known { knows self.old addr }
        ensures later { later self.old self.new }
        ensures gave { gave self.old self.new addr result }
        ensures once { once self.old self.new addr result }
        ensures own { 4000000000 ≤ addr → own self.old addr ≡ Some result };

    ghost laws: { WordsLaws addresses sound knows had leads own shown later gave };
}
