// Why a call refuses. Each refusal has a number and carries a value; the specifications list both for all cases.
ghost use Rattle.std.specs.Prelude.{◌≡◌};
ghost use Rattle.field.specs.Refusals.{listing};

#[derive(Clone, Copy, PartialEq, Eq, Debug)]
pub enum Refusal {
    // t or n beyond 2 ≤ t ≤ n ≤ 8
    PlanLimits,
    // the rows are not (n − t) × t numbers
    RowsLength,
    // a row's byte that is no code of the field: its index
    RowCode(u16),
    // the workspace of a check is shorter than 4,096 bytes
    Workspace,
    // a group of t cards that does not open: its bits
    GroupShut(u16),
    // a group of t − 1 cards that does not hide: its bits
    GroupTells(u16),
    // the key's length is not 1 to 64
    KeyLength,
    // the store is not t × t × b numbers
    StoreLength,
    // a byte of the store that is no code: its index
    StoreCode(u16),
    // padding in the store that is not zero: its index
    StorePadding(u16),
    // a card number of n or more
    NoCard(u8),
    // the card is out
    CardOut(u8),
    // the card is written
    CardWritten(u8),
    // the blank is another deal's, or its card is not out
    NotOut(u8),
    // the plan's t or n differ from the deal's, or its rows or the store do not fit the field
    WriteMismatch,
    // the place is not t × b numbers
    PlaceLength,
    // the deal has granted 200 blanks
    AllGranted,
    // there are not t card numbers
    CardCount,
    // a card number of n or more among those handed in
    NumberBeyond(u8),
    // a card number twice
    NumberTwice(u8),
    // the length of the key to be opened is not 1 to 64
    LengthBeyond,
    // the cards' data are not t × t × b numbers
    DataLength,
    // a byte of a card's data that is no code: 256 times the card's number and its index there
    DataCode(u16),
    // the place for the key is not L numbers
    KeyPlace,
    // the workspace of an opening is shorter than 4,096 bytes
    OpeningRoom,
    // padding of the opened key that is not zero: its index
    KeyPadding(u16),
}

impl Refusal {
    // The number that a refusal line has for it.
    pub fn number(self) -> u8
        ensures { result ≡ (listing self).0 }
    {
        match self {
            Refusal::PlanLimits => 0x10,
            Refusal::RowsLength => 0x11,
            Refusal::RowCode(_) => 0x12,
            Refusal::Workspace => 0x13,
            Refusal::GroupShut(_) => 0x15,
            Refusal::GroupTells(_) => 0x16,
            Refusal::KeyLength => 0x17,
            Refusal::StoreLength => 0x18,
            Refusal::StoreCode(_) => 0x19,
            Refusal::StorePadding(_) => 0x1A,
            Refusal::NoCard(_) => 0x20,
            Refusal::CardOut(_) => 0x21,
            Refusal::CardWritten(_) => 0x22,
            Refusal::NotOut(_) => 0x23,
            Refusal::WriteMismatch => 0x24,
            Refusal::PlaceLength => 0x25,
            Refusal::AllGranted => 0x26,
            Refusal::CardCount => 0x30,
            Refusal::NumberBeyond(_) => 0x31,
            Refusal::NumberTwice(_) => 0x32,
            Refusal::LengthBeyond => 0x33,
            Refusal::DataLength => 0x34,
            Refusal::DataCode(_) => 0x35,
            Refusal::KeyPlace => 0x36,
            Refusal::OpeningRoom => 0x37,
            Refusal::KeyPadding(_) => 0x38,
        }
    }

    // What it carries: an index, a card number or a group's bits; zero where it carries nothing.
    pub fn carried(self) -> u16
        ensures { result ≡ (listing self).1 }
    {
        match self {
            Refusal::RowCode(value)
            | Refusal::GroupShut(value)
            | Refusal::GroupTells(value)
            | Refusal::StoreCode(value)
            | Refusal::StorePadding(value)
            | Refusal::DataCode(value)
            | Refusal::KeyPadding(value) => value,
            Refusal::NoCard(card)
            | Refusal::CardOut(card)
            | Refusal::CardWritten(card)
            | Refusal::NotOut(card)
            | Refusal::NumberBeyond(card)
            | Refusal::NumberTwice(card) => u16::from(card),
            Refusal::PlanLimits
            | Refusal::RowsLength
            | Refusal::Workspace
            | Refusal::KeyLength
            | Refusal::StoreLength
            | Refusal::WriteMismatch
            | Refusal::PlaceLength
            | Refusal::AllGranted
            | Refusal::CardCount
            | Refusal::LengthBeyond
            | Refusal::DataLength
            | Refusal::KeyPlace
            | Refusal::OpeningRoom => 0,
        }
    }
}
