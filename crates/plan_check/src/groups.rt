// The first group of cards, in dictionary order, that lacks a property.
// Stays: by a rule of the project vetting is generic functions over lent slices, so the room of the workspace is asked of the calls.
ghost use Rattle.std.specs.Prelude.{◌≡◌, ◌≤◌, true, false, length};
ghost use Rattle.field.specs.Refusals.{refused};
ghost use Rattle.sharing.specs.Groups.{Group};
ghost use Rattle.sharing.specs.Lent.{lent_plan};
ghost use Rattle.plan_check.specs.Checks.{group_size, Passes, Searched};

use crate::property::Property;
use arrayvec::ArrayVec;
use field::Field;
use field::refusal::Refusal;
use sharing::decision::{group_hides, group_opens};
use sharing::groups::group_bits;
use sharing::sound::SoundPlan;

// The most cards that a plan has.
const CARDS: usize = 8;

// Whether a group of cards has the property.
fn passes<F: Field>(
    property: Property,
    plan: &SoundPlan<'_, F>,
    group: &[u8],
    workspace: &mut [u8],
) -> bool
    requires proper { Group plan.now.plan.n (group_size property plan.now.plan.t) group.now }
    requires room { 4096 ≤ length workspace.old }
    ensures yes { result ≡ true → Passes property F.Field.ops (lent_plan plan.now.plan) group.now }
    ensures no { result ≡ false → Passes property F.Field.ops (lent_plan plan.now.plan) group.now → ⊥ }
{
    match property {
        Property::Opening => group_opens(plan, group, workspace),
        Property::Hiding => group_hides(plan, group, workspace),
    }
}

// Grants a plan all of whose groups of cards have the property, else names the first that has not. Falling ranks, the
// groups' bits read with card 0 as the highest, go through the groups in dictionary order.
pub(crate) fn first_failing<F: Field>(
    property: Property,
    plan: &SoundPlan<'_, F>,
    workspace: &mut [u8],
) -> Result<(), Refusal>
    requires room { 4096 ≤ length workspace.old }
    ensures { Searched property F.Field.ops (lent_plan plan.now.plan) (refused result) }
{
    let size = usize::from(property.group_size(plan.plan.t));
    let mut rank = 1u16 << plan.plan.n;
    // Stays: by a rule of the project the search is nested loops that are left by label
    'groups: loop {
        if rank == 0 {
            break 'groups Ok(());
        }
        rank -= 1;
        let mut group = ArrayVec::<u8, CARDS>::new();
        let mut left = rank;
        for card in 0..plan.plan.n {
            let weight = 1u16 << (plan.plan.n - 1 - card);
            if left < weight {
                continue;
            }
            if group.len() == size {
                continue 'groups;
            }
            group.push(card);
            left -= weight;
        }
        let cards = group.as_slice();
        if cards.len() == size && !passes(property, plan, cards, workspace) {
            break 'groups Err(property.failure(group_bits(cards)));
        }
    }
}
