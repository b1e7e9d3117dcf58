/// What a seat that asked for a page is answered.
#[derive(Clone, Copy, Debug, PartialEq, Eq)]
pub enum Taken {
    /// The seat holds the page now.
    Got,
    /// Another seat held it.
    Busy,
}
