/// How a transfer ended.
#[derive(Clone, Copy, Debug, PartialEq, Eq)]
pub enum Moved {
    /// The entry's number.
    Done(u64),
    /// Another seat held one of the pages.
    Busy,
    /// There is no such purse, or nothing is in it.
    Empty,
}
