ghost use Rattle.std.specs.Prelude.{◌≡◌};
ghost use Rattle.logix_edge.specs.Causes.{counted, is_listed};

use fcp_model::Seq;

/// The calls that were made of something in memory, and which of them are to fail.
#[derive(Debug, Drop)]
pub struct Calls {
    /// How many were made, up to 2^64 - 1.
    pub made: u64,
    /// The numbers of those that are to fail; the first call is number 1.
    pub fails: Seq<u32>,
}

impl Calls {
    /// No call was made yet; those of these numbers are to fail.
    pub fn new(fails: Seq<u32>) -> Calls
        ensures made { result.made ≡ 0 }
        ensures fails { result.fails ≡ fails }
    {
        Calls { made: 0, fails }
    }

    /// Counts a call, and says whether it is to fail.
    pub fn next_fails(&mut self) -> bool
        ensures made { self.new.made ≡ counted self.old.made }
        ensures fails { self.new.fails ≡ self.old.fails }
        ensures listed { result ≡ is_listed self.old.fails (counted self.old.made) }
    {
        let number = self.made.saturating_add(1);
        self.made = number;
        self.fails
            .as_slice()
            .iter()
            .any(|listed| u64::from(*listed) == number)
    }
}
