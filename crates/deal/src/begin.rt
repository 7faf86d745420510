// Beginning a deal.
ghost use Rattle.std.specs.Prelude.{◌≡◌, Ok, Err};
ghost use Rattle.field.specs.Refusals.{refused, foremost};
ghost use Rattle.sharing.specs.Lent.{lent_plan};
ghost use Rattle.plan_check.specs.Plans.{vetted_plan};
ghost use Rattle.deal.specs.Faults.{begin_rules};
ghost use Rattle.deal.specs.Sharings.{rotated};
ghost use Rattle.deal.specs.Calls.{fresh};
ghost use Rattle.deal.specs.History.{Accounts};
ghost use Rattle.deal.specs.CardSet.{CardSet};
ghost use Rattle.deal.specs.Onlooker.{Begun};

use crate::deal::Deal;
use crate::state::{CardState, MOST_CARDS, State};
use crate::store::Store;
use field::Field;
use field::refusal::Refusal;
use lines::DealMark;
use plan_check::fault::faultless;
use plan_check::plan::{Checked, Vetted};
use sharing::plan::LentPlan;

// Grants what a deal may begin from, else names the first fault: the plan's, the key's length, the store's, then its padding.
fn begin_fits<F: Field>(plan: &LentPlan<'_>, len: usize, numbers: &[u8]) -> Result<(), Refusal>
    ensures { refused result ≡ foremost (begin_rules F.Field.ops (lent_plan plan.now) len numbers.now) }
{
    faultless::<F>(plan)?;
    if len < 1 || len > 64 {
        return Err(Refusal::KeyLength);
    }
    let store = Store::fitting::<F>(plan.t, len as u8, numbers)?;
    if let Some(index) = store.first_stray(len) {
        return Err(Refusal::StorePadding(index as u16));
    }
    Ok(())
}

// Makes a new deal of a key of `len` numbers from a vetted plan and a store: the padded key, then the dummy keys. For a deal
// that it grants, the law of accounts and the law of the onlooker stand.
pub fn begin<F: Field>(
    plan: &Vetted,
    mark: DealMark,
    len: usize,
    store: &[u8],
) -> Result<Deal, Refusal>
    ensures refusal { refused result ≡ foremost (begin_rules F.Field.ops (vetted_plan plan.now) len store.now) }
    ensures state { elim result [ Ok d ↦ d.state ≡ fresh mark (vetted_plan plan.now).t (vetted_plan plan.now).n len | Err _ ↦ Unit {0} ] }
    ensures accounts { elim result [ Ok d ↦ Accounts (rotated F.Field.ops) d.state | Err _ ↦ Unit {0} ] }
    ensures onlooker { elim result [ Ok d ↦ Begun F.Field.ops d.state (vetted_plan plan.now) store.now | Err _ ↦ Unit {0} ] }
{
    let plan = plan.lent();
    begin_fits::<F>(&plan, len, store)?;
    let state = State {
        mark,
        t: plan.t,
        n: plan.n,
        len: len as u8,
        cards: [CardState::Waiting; MOST_CARDS],
        granted: 0,
        spoiled: 0,
    };
    Ok(Deal { state })
}

// The whole promise of the card set in one statement, for every field: when plans are admitted and vetted, and both laws of
// a deal. It computes nothing.
pub fn card_set_law<F: Field>()
    ensures { CardSet F.Field.ops }
{}
