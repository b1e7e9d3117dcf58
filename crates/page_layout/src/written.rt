//! Words that are to be written.
ghost use Rattle.std.specs.Prelude.{◌+◌, ◌*◌, ◌<◌};

/// A word that is to be written at an address: `word`, and `step` for each entry up to the number of its own, which is at most 2^27.
#[derive(Clone, Copy)]
pub struct Written {
    pub addr: u32,
    pub word: u64,
    pub step: u64,
    ghost fits: { word + step * 134217728 < 18446744073709551616 },
}
