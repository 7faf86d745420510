// The t lowest cards of a slot, laid out as Open takes them.
ghost use Rattle.std.specs.Prelude.{◌≡◌, ◌+◌, ◌*◌, ◌≤◌, true, length, take};
ghost use Rattle.slot.specs.Holdings.{card_length, holding, within_limits};
ghost use Rattle.slot.specs.Phases.{first_heading};
ghost use Rattle.slot.specs.States.{laid};
ghost use Rattle.slot.specs.Unlocks.{data_held, lowest, size_held};

use crate::memory::{MOST_CARDS, State, WIDTH};
use arrayvec::ArrayVec;
use sharing::plan::lanes;

// Copies the numbers of a card to a place in the data.
fn copy(data: &mut [u8], at: usize, card: &[u8])
    requires { at + length card.now ≤ length «data».old }
    ensures { «data».new ≡ laid «data».old at card.now }
{
    data[at..at + card.len()].copy_from_slice(card);
}

impl State {
    // L of the cards held, 0 in an empty slot.
    pub(crate) fn size(&self) -> u8
        ensures { result ≡ size_held (holding self.now) }
    {
        self.phase.heading().map_or(0, |first| first.size)
    }

    // How many numbers each card held has, 0 in an empty slot.
    pub(crate) fn card_length(&self) -> usize
        requires { within_limits (first_heading self.now.phase) ≡ true }
        ensures { result ≡ card_length (first_heading self.now.phase) }
    {
        self.phase.heading().map_or(0, |first| usize::from(first.t) * lanes(first.t, first.size))
    }

    // Lays out the data of the t lowest cards held, one after the other, and hands out the numbers of those cards.
    pub(crate) fn gather(&self, t: usize, data: &mut [u8]) -> ArrayVec<u8, MOST_CARDS>
        requires limits { within_limits (first_heading self.now.phase) ≡ true }
        requires room { length «data».old ≡ 560 }
        ensures numbers { result.items ≡ lowest t (holding self.now).cards }
        ensures copied { take (length (lowest t (holding self.now).cards) * card_length (first_heading self.now.phase)) «data».new ≡ data_held (holding self.now).cards (lowest t (holding self.now).cards) }
    {
        let length = self.card_length();
        let mut numbers = ArrayVec::<u8, MOST_CARDS>::new();
        for card in (0..8u8).filter(|card| self.holds(*card)).take(t) {
            let from = WIDTH * usize::from(card);
            copy(
                data,
                numbers.len() * length,
                &self.memory[from..from + length],
            );
            numbers.push(card);
        }
        numbers
    }
}
