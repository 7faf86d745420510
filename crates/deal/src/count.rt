// Counting a deal's blanks.
ghost use Rattle.std.specs.Prelude.{◌≡◌};
ghost use Rattle.deal.specs.Calls.{count_answer};
ghost use Rattle.deal.specs.Calls.Answer.{Counts};

use crate::deal::Deal;
use crate::state::CardState;

impl Deal {
    // How many blanks are out, how many are written and how many were spoiled, together.
    pub fn count(&self) -> (u8, u8, u8)
        ensures { Counts result.0 result.1 result.2 ≡ count_answer self.now.state }
    {
        let cards = &self.state.cards[..self.state.n as usize];
        let out = cards.iter().filter(|card| **card == CardState::Out).count();
        let written = cards
            .iter()
            .filter(|card| **card == CardState::Written)
            .count();
        (out as u8, written as u8, self.state.spoiled)
    }
}
