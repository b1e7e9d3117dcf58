ghost use Rattle.std.specs.Prelude.{◌≡◌, ◌<◌, ◌^◌, slice_get};
ghost use Rattle.word_commit.specs.Meanings.{Meaning};
ghost use Rattle.word_commit.specs.Histories.{Laws};

use crate::quota::Quota;

/// Entries of one kind: what they read, write and cost, and what the words mean that they write.
pub trait Fits {
    /// What is stamped.
    type Entry: Drop;

    /// What the log keeps of an entry once its writes are published.
    type Logged: Drop;

    ghost means: { Meaning Self.Entry };

    ghost logged: { Self.Entry → Self.Logged };

    /// Element `at`, from 0, of the list of what the entry read; `None` exactly where the list is shorter.
    fn read(entry: &Self::Entry, at: u32) -> Option<(u32, u64)>
        ensures { result ≡ slice_get (means.reads entry.now) at };

    /// Element `at` of the list of what the entry writes where it has this number.
    fn write(entry: &Self::Entry, at: u32, number: u64) -> Option<(u32, u64)>
        requires { number < 2 ^ 32 }
        ensures { result ≡ slice_get (means.writes entry.now number) at };

    fn cost(entry: &Self::Entry) -> Quota
        ensures { result ≡ means.cost entry.now };

    fn into_logged(entry: Self::Entry) -> Self::Logged
        ensures { result ≡ logged entry };

    ghost laws: { Laws means };
}
