// The mark of a deal, which is the same on all its cards and on its key.
ghost use Rattle.lines.specs.Digits.{numeral, spelled};
ghost use Rattle.lines.specs.Kinds.{mark_bytes};
ghost use Rattle.std.specs.Prelude.{◌≡◌, take};

use crate::part::Part;

// How many bytes a mark has. Its number has as many.
pub const MARK_BYTES: u8 = 4;

// The number that the bytes of a mark make, the highest first.
pub type MarkNumber = u32;

// A deal's mark.
#[derive(Clone, Copy, PartialEq, Eq, Debug)]
pub struct DealMark {
    pub number: MarkNumber,
}

impl DealMark {
    // The mark that a field spells.
    pub fn of(part: Part<'_>) -> DealMark
        ensures { result.number ≡ numeral (take mark_bytes (spelled part.entry.digits.now)) }
    {
        let mut number: MarkNumber = 0;
        for byte in part.numbers().take(usize::from(MARK_BYTES)) {
            number = number * 256 + MarkNumber::from(byte);
        }
        DealMark { number }
    }
}
