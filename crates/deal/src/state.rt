// What a deal holds, as plain records that the specifications speak of.
use lines::DealMark;

// Where a card of a deal stands.
#[derive(Clone, Copy, PartialEq, Eq, Debug)]
pub enum CardState {
    // it may be taken
    Waiting,
    // its blank is out
    Out,
    // it is written
    Written,
}

// How many cards a deal has at most.
pub const MOST_CARDS: usize = 8;

// How many blanks a deal grants at most.
pub const MOST_BLANKS: u8 = 200;

// What a deal remembers: its mark, the plan's t and n, the key's length, where each card stands, and how many blanks were
// granted and spoiled.
// Stays: a deal has no heap and its memory is fixed, so the cards stand in an array of the most that there are, beside n.
#[derive(Clone, Copy)]
pub struct State {
    pub(crate) mark: DealMark,
    pub(crate) t: u8,
    pub(crate) n: u8,
    pub(crate) len: u8,
    pub(crate) cards: [CardState; MOST_CARDS],
    pub(crate) granted: u8,
    pub(crate) spoiled: u8,
}

// A blank (the right to write one card): a token of the card's number and the deal's mark. It cannot be let go, so it must
// be written or spoiled.
pub struct Blank {
    pub(crate) card: u8,
    pub(crate) mark: DealMark,
}
