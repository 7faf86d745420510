// The fields that there are: from the mark in a line of text to a field.
ghost use Rattle.std.specs.Prelude.{◌≡◌, length};
ghost use Rattle.field.specs.Known.{Names, Hold, worked_products};

// One of the fields. A program that has read a mark goes on by a match on this.
#[derive(Clone, Copy, PartialEq, Eq, Debug)]
pub enum Known {
    Bytes,
    Modulo97,
}

// A mark that no field has.
#[derive(Clone, Copy, PartialEq, Eq, Debug)]
pub struct UnknownMark(pub u8);

// The field with this mark.
impl TryFrom<u8> for Known {
    type Error = UnknownMark;

    ghost try_from_gives = { Names };

    fn try_from(mark: u8) -> Result<Known, UnknownMark> {
        match mark {
            1 => Ok(Known::Bytes),
            2 => Ok(Known::Modulo97),
            _ => Err(UnknownMark(mark)),
        }
    }
}

// How many products were worked out by hand: each of them is proved to be the product in its field.
pub fn worked_products() -> usize
    ensures number { result ≡ length worked_products }
    ensures hold { Hold worked_products }
{
    3
}
