// How far the slot has come, and how an event moves it on.
ghost use Rattle.std.specs.Prelude.{◌≡◌, Some};
ghost use Rattle.slot.specs.Phases.{first_heading, phase_of, heading_after};

use lines::DealMark;

// What stands on every card of a deal: the deal's mark, t and n of its plan, and L, the length of its key.
#[derive(Clone, Copy, PartialEq, Eq, Debug)]
pub struct Heading {
    pub mark: DealMark,
    pub t: u8,
    pub n: u8,
    pub size: u8,
}

// The phase of a slot, with the heading of its first card.
#[derive(Clone, Copy, PartialEq, Eq, Debug)]
pub enum Phase {
    // it holds no card
    Empty,
    // it holds fewer than t cards
    Gathering(Heading),
    // it holds t or more cards
    Ready(Heading),
}

// What moves a slot.
// Stays: by a rule of the project phase and event are matched together.
#[derive(Clone, Copy, PartialEq, Eq, Debug)]
pub enum Event {
    // a card with that heading is put in
    Insert(Heading),
    // a card is taken out
    Pull,
    // all cards are taken out
    Clear,
}

// The phase of a slot that holds so many cards with that heading.
fn phase_at(heading: Heading, held: u8) -> Phase
    ensures { result ≡ phase_of (Some heading) held }
{
    if held == 0 {
        Phase::Empty
    } else if held < heading.t {
        Phase::Gathering(heading)
    } else {
        Phase::Ready(heading)
    }
}

impl Phase {
    // The heading of the first card; none in an empty slot.
    pub(crate) fn heading(self) -> Option<Heading>
        ensures { result ≡ first_heading self }
    {
        match self {
            Phase::Empty => None,
            Phase::Gathering(heading) | Phase::Ready(heading) => Some(heading),
        }
    }

    // Moves on at an event after which so many cards are held.
    pub(crate) fn step(&mut self, event: Event, held: u8)
        ensures { self.new ≡ phase_of (heading_after self.old event) held }
    {
        *self = match (*self, event) {
            (Phase::Empty, Event::Insert(first))
            | (Phase::Gathering(first) | Phase::Ready(first), Event::Insert(_) | Event::Pull) => {
                phase_at(first, held)
            }
            (Phase::Empty, Event::Pull) | (_, Event::Clear) => Phase::Empty,
        };
    }
}
