// A field of a line, where it lies in the text.
ghost use Rattle.lines.specs.Digits.{numeral, spelled};
ghost use Rattle.lines.specs.Parts.{coming};
ghost use Rattle.std.specs.Iterator.{YieldsFirst, item_count};
ghost use Rattle.std.specs.Prelude.{◌≡◌, ◌<◌, ◌^◌, length, take, drop, slice_index};

use crate::digits::digit_value;

// The digits of a field, and where in the line they begin.
#[derive(Clone, Copy, PartialEq, Eq, Debug)]
pub struct Part<'a> {
    pub place: usize,
    pub digits: &'a [u8],
}

#[tactic(auto, using(crate::proofs::Spelling::spelling))]
impl<'a> Part<'a> {
    // How many numbers the digits spell.
    pub fn count(&self) -> usize
        ensures { result ≡ length (spelled self.now.digits.now) }
    {
        let digits = self.digits.len();
        digits / 2
    }

    // The numbers of the field, one after the other.
    pub fn numbers(&self) -> Numbers<'a>
        ensures numbers { coming result ≡ spelled self.now.digits.now }
        ensures bound { length (coming result) < 2 ^ 63 }
    {
        Numbers {
            digits: self.digits,
        }
    }

    // Number k of the field, 0 past its end.
    pub fn number(&self, k: usize) -> u8
        ensures { result ≡ slice_index (spelled self.now.digits.now) k }
    {
        if k >= self.digits.len() / 2 {
            return 0;
        }
        digit_value(self.digits[2 * k]) * 16 + digit_value(self.digits[2 * k + 1])
    }
}

// The numbers that digits spell, two digits each.
#[derive(Drop)]
pub struct Numbers<'a> {
    digits: &'a [u8],
}

impl Iterator for Numbers<'_> {
    type Item = u8;

    ghost next_gives = { YieldsFirst coming };

    ghost remaining = { item_count coming };

    fn next(&mut self) -> Option<u8> {
        let [high, low, digits @ ..] = self.digits else {
            return None;
        };
        self.digits = digits;
        Some(digit_value(*high) * 16 + digit_value(*low))
    }
}

// What stands in a line from a place on.
pub(crate) fn tail_at<'a>(line: &'a [u8], place: usize) -> Part<'a>
    ensures place { result.place ≡ place }
    ensures digits { result.digits.now ≡ drop place line.now }
{
    let from = place.min(line.len());
    Part {
        place,
        digits: &line[from..],
    }
}

// So many digits of a line from a place on.
pub(crate) fn part_at<'a>(line: &'a [u8], place: usize, digits: usize) -> Part<'a>
    ensures place { result.place ≡ place }
    ensures digits { result.digits.now ≡ take digits (drop place line.now) }
{
    let rest = tail_at(line, place).digits;
    let to = digits.min(rest.len());
    Part {
        place,
        digits: &rest[0..to],
    }
}

// The number in the field of one byte that begins at a place.
pub(crate) fn byte_at(line: &[u8], place: usize) -> u8
    ensures { result ≡ numeral (spelled (take 2 (drop place line.now))) }
{
    part_at(line, place, 2).number(0)
}
