// Why the slot refuses. Each refusal has a number, carries a value and comes from a layer; the specifications list all
// three for all cases.
ghost use Rattle.std.specs.Prelude.{◌≡◌};
ghost use Rattle.slot.specs.Refusals.{listing};
ghost use Rattle.slot.specs.declared.refusal.SlotRefusal.TheVariants.{Line as FromLine, Shared as FromShared};

use field::refusal::Refusal;
use lines::Fault;

// Where a refusal comes from: the line of text, or the slot itself.
#[derive(Clone, Copy, PartialEq, Eq, Debug)]
pub enum Layer {
    Line,
    Slot,
}

#[derive(Clone, Copy, PartialEq, Eq, Debug)]
pub enum SlotRefusal {
    // a fault of the text or of its line, as the reader said it
    Line(Fault),
    // what is refused elsewhere too: a byte of the data that is no code, a plan's fault, what Open refuses
    Shared(Refusal),
    // mark, t, n or L of the card differ from those held
    OtherDeal,
    // the card is held already: its number
    HeldAlready(u8),
    // t or n of the plan differ from those held
    OtherPlan,
    // the card is not held: its number
    NotHeld(u8),
    // fewer cards are held than the plan's t: how many
    TooFew(u8),
}

impl SlotRefusal {
    // The number that a refusal line has for it.
    pub fn number(self) -> u8
        ensures { result ≡ (listing self).0 }
    {
        match self {
            SlotRefusal::Line(fault) => fault.number(),
            SlotRefusal::Shared(refusal) => refusal.number(),
            SlotRefusal::OtherDeal => 0x50,
            SlotRefusal::HeldAlready(_) => 0x51,
            SlotRefusal::OtherPlan => 0x52,
            SlotRefusal::NotHeld(_) => 0x53,
            SlotRefusal::TooFew(_) => 0x54,
        }
    }

    // What it carries: a place, a card number or how many cards; zero where it carries nothing.
    pub fn carried(self) -> usize
        ensures { result ≡ (listing self).1 }
    {
        match self {
            SlotRefusal::Line(fault) => fault.carries(),
            SlotRefusal::Shared(refusal) => usize::from(refusal.carried()),
            SlotRefusal::HeldAlready(value)
            | SlotRefusal::NotHeld(value)
            | SlotRefusal::TooFew(value) => usize::from(value),
            SlotRefusal::OtherDeal | SlotRefusal::OtherPlan => 0,
        }
    }

    // The layer that it comes from.
    pub fn layer(self) -> Layer
        ensures { result ≡ (listing self).2 }
    {
        match self {
            SlotRefusal::Line(_) => Layer::Line,
            _ => Layer::Slot,
        }
    }
}

// A line's fault goes up whole.
impl From<Fault> for SlotRefusal {
    ghost from_gives = { λ fault r. r ≡ FromLine fault };

    fn from(fault: Fault) -> SlotRefusal {
        SlotRefusal::Line(fault)
    }
}

// What is refused elsewhere too goes up whole.
impl From<Refusal> for SlotRefusal {
    ghost from_gives = { λ refusal r. r ≡ FromShared refusal };

    fn from(refusal: Refusal) -> SlotRefusal {
        SlotRefusal::Shared(refusal)
    }
}
