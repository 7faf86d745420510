// Taking blanks, and bringing them back.
ghost use Rattle.std.specs.Prelude.{◌≡◌, true, ◌&&◌, Ok, Err, if◌then◌else◌};
ghost use Rattle.deal.specs.Calls.{is_out, standing, same_mark, moved, take_answer, take_after, spoil_answer, spoil_after, gave, brought};

use crate::deal::Deal;
use crate::state::{Blank, CardState, MOST_BLANKS};
use field::refusal::Refusal;
use lines::DealMark;

impl Deal {
    // Gives a blank for card `j`.
    pub fn take(&mut self, j: u8) -> Result<Blank, Refusal>
        ensures answer { gave result ≡ take_answer self.old.state j }
        ensures after { self.new.state ≡ take_after self.old.state j }
    {
        if j >= self.state.n {
            return Err(Refusal::NoCard(j));
        }
        match self.state.cards[j as usize] {
            CardState::Out => return Err(Refusal::CardOut(j)),
            CardState::Written => return Err(Refusal::CardWritten(j)),
            CardState::Waiting => {}
        }
        if self.state.granted >= MOST_BLANKS {
            return Err(Refusal::AllGranted);
        }
        self.state.cards[j as usize] = CardState::Out;
        self.state.granted += 1;
        Ok(Blank {
            card: j,
            mark: self.state.mark,
        })
    }
}

impl Deal {
    // Refuses a blank that is another deal's, or whose card is not out.
    pub(crate) fn expect_out(&self, card: u8, mark: DealMark) -> Result<(), Refusal>
        ensures { result ≡ (if same_mark mark self.now.state.mark && is_out (standing self.now.state card) then Ok tt else Err (Refusal.NotOut card)) }
    {
        if mark != self.state.mark || self.state.cards.get(card as usize) != Some(&CardState::Out) {
            return Err(Refusal::NotOut(card));
        }
        Ok(())
    }

    // Makes a card that is out a written one.
    pub(crate) fn finish(&mut self, card: u8)
        requires { is_out (standing self.old.state card) ≡ true }
        ensures { self.new.state ≡ moved self.old.state card CardState.Written 0 0 }
    {
        self.state.cards[card as usize] = CardState::Written;
    }

    // Counts the blank of a card that is out as spoiled; the card waits again.
    pub(crate) fn bring_back(&mut self, card: u8)
        requires { is_out (standing self.old.state card) ≡ true }
        ensures { self.new.state ≡ moved self.old.state card CardState.Waiting 0 1 }
    {
        self.state.cards[card as usize] = CardState::Waiting;
        self.state.spoiled += 1;
    }
}

impl Blank {
    // The number of the card that it is for.
    pub fn card(&self) -> u8
        ensures { result ≡ self.now.card }
    {
        self.card
    }

    // Brings the blank back unwritten: it is spoiled, and the card may be taken again. It is spent in every case.
    pub fn spoil(self, deal: &mut Deal) -> Result<(), Refusal>
        ensures answer { brought result ≡ spoil_answer deal.old.state self }
        ensures after { deal.new.state ≡ spoil_after deal.old.state self }
    {
        let Blank { card, mark } = self;
        deal.expect_out(card, mark)?;
        deal.bring_back(card);
        Ok(())
    }
}
