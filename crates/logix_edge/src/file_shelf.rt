ghost use Rattle.std.specs.Prelude.{◌≡◌, None};
ghost use Rattle.logix_edge.specs.Shelves.{IsWithin};

use crate::faults::Faults;
use crate::streams::read_up_to;
use crate::{Fetched, Shelf};
use std::alloc::Global;
use std::fs;
use std::rt::Files;

/// The files of the system, by their paths. It makes no promise on what a file holds, nor that two fetches of a name
/// give the same bytes. Each error of the system is a fault.
#[derive(Drop)]
pub struct FileShelf<'a, R: Files> {
    rt: &'a R,
    faults: Faults,
}

impl<'a, R: Files> FileShelf<'a, R> {
    ghost use Rattle.logix_edge.specs.System.{file_faults, file_last};

    /// The shelf of all files that the runtime reaches.
    pub fn make(rt: &'a R) -> FileShelf<'a, R>
        ensures sound { file_faults result ≡ 0 }
        ensures none_failed { file_last result ≡ None }
    {
        FileShelf {
            rt,
            faults: Faults::new(),
        }
    }
}

impl<'a, R: Files> Shelf for FileShelf<'a, R> {
    ghost use Rattle.logix_edge.specs.System.{file_faults, file_last};

    ghost held = { λ _. None };

    ghost faults = { file_faults };

    ghost last_failed = { file_last };

    fn fetch(&mut self, alloc: Global, name: &str, limit: u64) -> Fetched {
        // The copy comes first, so that a fetch that fails can keep the name.
        let Ok(kept) = String::from_str(alloc, name) else {
            return Fetched::NoMemory;
        };
        match read_file(self.rt, alloc, name, limit) {
            Fetched::Failed => {
                self.faults.note(kept);
                Fetched::Failed
            }
            fetched => fetched,
        }
    }
}

/// Opens the file of exactly this path, and reads it up to the limit.
fn read_file<R: Files>(rt: &R, alloc: Global, path: &str, limit: u64) -> Fetched
    ensures { IsWithin limit result }
{
    match fs::open(rt, path) {
        Ok(mut file) => read_up_to(alloc, &mut file, limit),
        Err(_) => Fetched::Failed,
    }
}
