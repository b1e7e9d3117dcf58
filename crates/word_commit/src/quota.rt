/// What a seat may still spend, or what one entry costs.
#[derive(Clone, Copy, Debug, PartialEq, Eq)]
pub struct Quota {
    pub commits: u32,
    pub moves: u32,
    pub cells: u32,
}
