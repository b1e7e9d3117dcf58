ghost use Rattle.std.specs.Prelude.{◌≡◌, Some, None, IsTrue, length, map, position};
ghost use Rattle.std.specs.List.{AllZip, zip};
ghost use Rattle.std.specs.Option.{option_map};
ghost use Rattle.std.specs.Str.{bytes_eq};
ghost use Rattle.std.specs.String.{string_bytes};
ghost use Rattle.logix_edge.specs.Causes.{counted};
ghost use Rattle.logix_edge.specs.Shelves.{IsFetch, bytes_of};

use crate::calls::Calls;
use crate::faults::Faults;
use crate::{Fetched, Shelf};
use fcp_model::Seq;
use std::alloc::Global;

/// A shelf in memory. Chosen calls of it fail.
#[derive(Debug, Drop)]
pub struct MemoryShelf {
    names: Seq<String>,
    texts: Seq<Vec<u8>>,
    calls: Calls,
    faults: Faults,
}

impl MemoryShelf {
    ghost use Rattle.logix_edge.specs.MemoryShelves.{names_differ, shelf_entries, shelf_calls, shelf_fails, shelf_faults, shelf_last};

    /// A shelf that holds under each name the text at the same place.
    /// The fetches whose numbers are in `fails` fail; the first fetch is number 1.
    pub fn make(
        _alloc: Global,
        names: Seq<String>,
        texts: Seq<Vec<u8>>,
        fails: Seq<u32>,
    ) -> MemoryShelf
        requires paired { length names ≡ length texts }
        requires distinct { IsTrue (names_differ (map string_bytes names)) }
        ensures entries { shelf_entries result ≡ zip (map string_bytes names) (map (λ text. text.items) texts) }
        ensures found { AllZip (λ name text. bytes_of (shelf_entries result) name ≡ Some text)
            (map string_bytes names) (map (λ text. text.items) texts) }
        ensures fails { shelf_fails result ≡ fails }
        ensures unused { shelf_calls result ≡ 0 }
        ensures sound { shelf_faults result ≡ 0 }
        ensures none_failed { shelf_last result ≡ None }
    {
        MemoryShelf {
            names,
            texts,
            calls: Calls::new(fails),
            faults: Faults::new(),
        }
    }
}

impl Shelf for MemoryShelf {
    ghost use Rattle.logix_edge.specs.MemoryShelves.{shelf_entries, shelf_calls, shelf_fails, shelf_faults, shelf_last, fetch_fails, FailsIf};

    ghost held = { λ shelf. Some (shelf_entries shelf) };

    ghost faults = { shelf_faults };

    ghost last_failed = { shelf_last };

    fn fetch(&mut self, alloc: Global, name: &str, limit: u64) -> Fetched
        ensures same { shelf_entries self.new ≡ shelf_entries self.old }
        ensures fetch { IsFetch (Some (shelf_entries self.old)) (shelf_faults self.old) (shelf_faults self.new)
            (shelf_last self.old) (shelf_last self.new) name.now limit result }

        // Just the calls that were chosen, and those of a lacking name, fail.
        ensures fails { FailsIf (fetch_fails self.old name.now) result }
        ensures fault { result ≡ Fetched.Failed → shelf_faults self.new ≡ counted (shelf_faults self.old) }

        ensures calls { shelf_calls self.new ≡ counted (shelf_calls self.old) }
        ensures same_fails { shelf_fails self.new ≡ shelf_fails self.old }
    {
        let fails = self.calls.next_fails();
        let found = find(self.names.as_slice(), self.texts.as_slice(), name);
        // The copy comes first, so that a fetch that fails can keep the name.
        let Ok(kept) = String::from_str(alloc, name) else {
            return Fetched::NoMemory;
        };
        match found {
            Some(text) if !fails && text.len() as u64 > limit => Fetched::TooLong,
            Some(text) if !fails => match Vec::from_slice(alloc, text.as_slice()) {
                Ok(bytes) => Fetched::Bytes(bytes),
                Err(_) => Fetched::NoMemory,
            },
            _ => {
                self.faults.note(kept);
                Fetched::Failed
            }
        }
    }
}

/// The text at the place of the name.
fn find<'a>(names: &[String], texts: &'a [Vec<u8>], name: &str) -> Option<&'a Vec<u8>>
    ensures { option_map (λ text. text.now.items) result
        ≡ bytes_of (zip (map string_bytes names.now) (map (λ text. text.items) texts.now)) name.now }
{
    let place = place_of(names, name)?;
    texts.get(place)
}

/// The first place of the name, from 0.
fn place_of(names: &[String], name: &str) -> Option<usize>
    ensures { result ≡ position (λ held. bytes_eq (string_bytes held) name.now) names.now }
{
    names.iter().position(|held| held.as_str() == name)
}
