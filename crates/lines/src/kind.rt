// The kinds of line, with the number, the widths and the data of each.
ghost use Rattle.lines.specs.Kinds.{has_data, kind_number, widths};
ghost use Rattle.std.specs.Prelude.{◌≡◌};

use crate::mark::MARK_BYTES;

// What a line can be.
#[derive(Clone, Copy, PartialEq, Eq, Debug)]
pub enum Kind {
    // Threshold and number of cards of a plan.
    Plan,
    // The numbers of one row of a plan.
    Row,
    // One card of a deal.
    Card,
    // A key without padding.
    Key,
    // One dummy key.
    Dummy,
    // A refusal, which is only written.
    Refusal,
}

impl Kind {
    // The byte that a line of this kind begins with.
    pub fn number(self) -> u8
        ensures { result ≡ kind_number self }
    {
        match self {
            Kind::Plan => 0x01,
            Kind::Row => 0x02,
            Kind::Card => 0x03,
            Kind::Key => 0x04,
            Kind::Dummy => 0x05,
            Kind::Refusal => 0x0f,
        }
    }

    // How many bytes each field has, in order, data left out.
    pub fn widths(self) -> &'static [u8]
        ensures { result.now ≡ widths self }
    {
        match self {
            Kind::Plan => &[1, 1, 1],
            Kind::Row => &[],
            Kind::Card => &[1, MARK_BYTES, 1, 1, 1, 1],
            Kind::Key => &[MARK_BYTES],
            Kind::Dummy => &[],
            Kind::Refusal => &[1, 2, 2],
        }
    }

    // Whether data follows the fields.
    pub fn has_data(self) -> bool
        ensures { result ≡ has_data self }
    {
        matches!(self, Kind::Row | Kind::Card | Kind::Key | Kind::Dummy)
    }
}
