// What the slot refuses of a card that was read.
ghost use Rattle.std.specs.Prelude.{◌≡◌, ◌<◌, false, length, slice_index_or, IfSome};
ghost use Rattle.plan_check.specs.Faults.{first_no_code};
ghost use Rattle.lines.specs.Digits.{spelled};
ghost use Rattle.slot.specs.Cards.{card_content};
ghost use Rattle.slot.specs.Holdings.{holding};
ghost use Rattle.slot.specs.Inserts.{card_table, differs};
ghost use Rattle.slot.specs.Phases.{first_heading};
ghost use Rattle.slot.specs.Refusals.{foremost, refused};

use crate::card::Card;
use crate::memory::State;
use crate::phase::Heading;
use crate::refusal::SlotRefusal;
use field::Field;
use field::refusal::Refusal;
use lines::Part;

// The index of the first number that digits spell and that is no code of the field.
// Stays: the check has the same search in a slice; one over any iterator would have to say what the iterator yields, for one line.
fn first_no_code_in<F: Field>(data: Part<'_>) -> Option<usize>
    ensures value { result ≡ first_no_code F.Field.ops (spelled «data».entry.digits.now) }
    ensures bound { IfSome result (λ i. i < length (spelled «data».entry.digits.now)) }
{
    let size = F::size();
    data.numbers().position(|number| u16::from(number) >= size)
}

impl State {
    // Whether a heading is another than that of the cards held.
    fn is_other(&self, heading: Heading) -> bool
        ensures { result ≡ differs (first_heading self.now.phase) heading }
    {
        self.phase.heading().is_some_and(|first| first != heading)
    }

    // Whether a card is held.
    pub(crate) fn holds(&self, number: u8) -> bool
        ensures { result ≡ slice_index_or self.now.held number false }
    {
        self.held.get(usize::from(number)).copied().unwrap_or(false)
    }

    // What is refused of a card: a number that is no code, another heading, a card that is held already.
    #[tactic(auto, using(crate::proofs::Putting::held_flag))]
    pub(crate) fn check_card<F: Field>(&self, card: Card<'_>) -> Result<(), SlotRefusal>
        ensures { refused result ≡ foremost (card_table F.Field.ops (holding self.now) (card_content F.Field.ops.mark card.entry)) }
    {
        if let Some(index) = first_no_code_in::<F>(card.data) {
            let place = 256 * u16::from(card.number) + index as u16;
            return Err(Refusal::DataCode(place).into());
        }
        if self.is_other(card.heading) {
            return Err(SlotRefusal::OtherDeal);
        }
        if self.holds(card.number) {
            return Err(SlotRefusal::HeldAlready(card.number));
        }
        Ok(())
    }
}
