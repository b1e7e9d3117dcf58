ghost use Rattle.word_commit.specs.Rising.{RisingLaws};

use crate::fits::Fits;

/// A law: numbers rise in each seat that took in no other. It does nothing.
pub fn numbers_rise<F: Fits>()
    ensures { RisingLaws F.means }
{}
