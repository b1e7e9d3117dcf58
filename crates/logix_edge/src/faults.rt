ghost use Rattle.std.specs.Prelude.{◌≡◌, None};
ghost use Rattle.std.specs.String.{string_bytes};
ghost use Rattle.logix_edge.specs.Causes.{counted};
ghost use Rattle.logix_edge.specs.Shelves.{NotesFault};
ghost use Rattle.logix_edge.specs.LastFailed.{last_name};

/// The faults of a shelf.
#[derive(Debug, Drop)]
pub struct Faults {
    /// How many there were, up to 2^64 - 1.
    pub count: u64,
    /// The name of the fetch that failed last.
    pub last: Option<String>,
}

impl Faults {
    /// No fetch failed yet.
    pub fn new() -> Faults
        ensures count { result.count ≡ 0 }
        ensures last { last_name result ≡ None }
    {
        Faults {
            count: 0,
            last: None,
        }
    }

    /// Counts one more, of a fetch of this name.
    pub fn note(&mut self, name: String)
        ensures count { self.new.count ≡ counted self.old.count }
        ensures noted { NotesFault self.old.count self.new.count (last_name self.new) (string_bytes name) }
    {
        self.count = self.count.saturating_add(1);
        self.last = Some(name);
    }
}
