// Writing a card on its blank.
ghost use Rattle.std.specs.Prelude.{◌≡◌, not, ◌&&◌, ◌||◌, [], ◌∷◌, length, Ok, Err, IfOk, ◌==◌};
ghost use Rattle.field.specs.Refusals.{refused, foremost};
ghost use Rattle.sharing.specs.Lent.{lent_plan};
ghost use Rattle.sharing.specs.Scheme.{lanes};
ghost use Rattle.plan_check.specs.Plans.{vetted_plan};
ghost use Rattle.deal.specs.Sharings.{rotated};
ghost use Rattle.deal.specs.Calls.{write_answer, write_after, wrote};

use crate::casting::write_card;
use crate::deal::Deal;
use crate::state::Blank;
use crate::store::Store;
use field::Field;
use field::refusal::Refusal;
use plan_check::fault::faultless;
use plan_check::plan::{Checked, Vetted};
use sharing::plan::LentPlan;

impl Deal {
    // The store that a card is written from into so much room. Refused, if the plan is another than the deal's by its t or n,
    // if its rows or the store do not fit the field, or if the room is not a card's.
    fn store_for<'a, F: Field>(
        &self,
        plan: &LentPlan<'_>,
        numbers: &'a [u8],
        room: usize,
    ) -> Result<Store<'a>, Refusal>
        ensures refusal { let sharing = rotated F.Field.ops (lent_plan plan.now) self.now.state.len in refused result ≡ foremost ((0x24, not ((lent_plan plan.now).t == self.now.state.t && (lent_plan plan.now).n == self.now.state.n) || sharing.unfit numbers.now, 0) ∷ (0x25, not (room == sharing.size), 0) ∷ []) }
        ensures store { IfOk result (λ s. (s.numbers.now ≡ numbers.now) × (s.t ≡ (lent_plan plan.now).t) × (s.lanes ≡ lanes (lent_plan plan.now).t self.now.state.len)) }
    {
        if plan.t != self.state.t || plan.n != self.state.n {
            return Err(Refusal::WriteMismatch);
        }
        let mismatch = |_| Refusal::WriteMismatch;
        faultless::<F>(plan).map_err(mismatch)?;
        let store = Store::fitting::<F>(plan.t, self.state.len, numbers).map_err(mismatch)?;
        if room != store.t * store.lanes {
            return Err(Refusal::PlaceLength);
        }
        Ok(store)
    }
}

impl Blank {
    // Puts the data of the blank's card into the place: the card of this plan and store. With a plan or a store that does
    // not fit, or a place of the wrong length, the card is spoiled. The blank is spent in every case.
    pub fn write<F: Field>(
        self,
        deal: &mut Deal,
        plan: &Vetted,
        store: &[u8],
        place: &mut [u8],
    ) -> Result<(), Refusal>
        ensures answer { wrote result place.new ≡ write_answer (rotated F.Field.ops) deal.old.state self (vetted_plan plan.now) store.now (length place.old) }
        ensures after { deal.new.state ≡ write_after (rotated F.Field.ops) deal.old.state self (vetted_plan plan.now) store.now (length place.old) }
        ensures same { elim result [ Ok _ ↦ Unit {0} | Err _ ↦ place.new ≡ place.old ] }
    {
        let Blank { card, mark } = self;
        deal.expect_out(card, mark)?;
        let plan = plan.lent();
        // Stays: the blank is spoiled before the refusal goes on, and `inspect_err` leaves open what the deal holds after a grant.
        match deal.store_for::<F>(&plan, store, place.len()) {
            Ok(store) => {
                write_card::<F>(&plan, &store, card, place);
                deal.finish(card);
                Ok(())
            }
            Err(refusal) => {
                deal.bring_back(card);
                Err(refusal)
            }
        }
    }
}
