// The memory of a slot.
use crate::phase::Phase;

// How many cards there are at most, how many numbers each of them has at most, and how many all of them have at most.
pub const MOST_CARDS: usize = 8;

pub(crate) const WIDTH: usize = 70;

pub const MEMORY: usize = MOST_CARDS * WIDTH;

// The phase, which cards are held, and the data of card k in the 70 numbers from 70 × k on.
// Stays: the numbers stand beside the flags, since those of a card that is taken out are promised to be zero.
#[derive(Drop)]
pub struct State {
    pub(crate) phase: Phase,
    pub(crate) held: [bool; MOST_CARDS],
    pub(crate) memory: [u8; MEMORY],
}
