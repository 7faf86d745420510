// The call of a slot that opens the key, and leaves the slot as it is.
ghost use Rattle.std.specs.Prelude.{◌≡◌, length, None};
ghost use Rattle.field.specs.Refusals.{foremost};
ghost use Rattle.sharing.specs.Lent.{lent_plan};
ghost use Rattle.plan_check.specs.Checks.{cleared};
ghost use Rattle.slot.specs.Holdings.{holding};
ghost use Rattle.slot.specs.Phases.{first_heading};
ghost use Rattle.slot.specs.Unlocks.{GivesKey, OnlyUnlocked, Unlocked, no_code_held, other_plan, plan_table, told};

use crate::memory::{MEMORY, State};
use crate::refusal::SlotRefusal;
use crate::slot::Slot;
use field::Field;
use opening::open;
use plan_check::fault::faultless;
use plan_check::guard::Guard;
use plan_check::plan::Checked;
use sharing::plan::LentPlan;

// How many bytes a workspace has to have.
const ROOM: usize = 4096;

// Leaves a workspace as every call does: a guard takes it over and ends, unless it is too short.
fn leave(workspace: &mut [u8])
    ensures { workspace.new ≡ cleared workspace.old }
{
    if workspace.len() >= ROOM {
        let _guard = Guard { bytes: workspace };
    }
}

impl State {
    // Whether t or n of a plan are others than those of the cards held.
    fn is_other_plan(&self, plan: &LentPlan<'_>) -> bool
        ensures { result ≡ other_plan (first_heading self.now.phase) (lent_plan plan.now) }
    {
        let LentPlan { t, n, .. } = *plan;
        self.phase
            .heading()
            .is_some_and(|first| first.t != t || first.n != n)
    }

    // What stands against a plan: its faults, other cards than the plan's, fewer than t cards.
    fn check_plan<F: Field>(&self, plan: &LentPlan<'_>) -> Result<(), SlotRefusal>
        ensures { told result ≡ foremost (plan_table F.Field.ops (lent_plan plan.now) (holding self.now)) }
    {
        faultless::<F>(plan)?;
        if self.is_other_plan(plan) {
            return Err(SlotRefusal::OtherPlan);
        }
        let held = self.count();
        if held < plan.t {
            return Err(SlotRefusal::TooFew(held));
        }
        Ok(())
    }
}

impl<F: Field> Slot<F> {
    // Opens the key with the t lowest cards held, once nothing stands against the plan. The copy of their data is zeroed in
    // the end, as the workspace is.
    fn open_lowest<P: Checked>(
        &self,
        plan: &P,
        key: &mut [u8],
        workspace: &mut [u8],
    ) -> Result<(), SlotRefusal>
        requires { foremost (plan_table F.Field.ops (P.Checked.plan plan.now) (holding self.now.state)) ≡ None }
        ensures answer { Unlocked F.Field.ops (P.Checked.plan plan.now) (holding self.now.state) key.old key.new (length workspace.old) result }
        ensures zeros { workspace.new ≡ cleared workspace.old }
    {
        let t = usize::from(plan.threshold());
        let length = t * self.state.card_length();
        // Stays: the slot has no heap, so the copy lies in an array of the most numbers that all cards have
        let mut memory = [0u8; MEMORY];
        let guard = Guard { bytes: &mut memory };
        let numbers = self.state.gather(t, guard.bytes);
        let cards = numbers.as_slice();
        let data = &guard.bytes[0..length];
        open::<F, P>(plan, cards, data, self.state.size(), key, workspace)?;
        Ok(())
    }

    // Opens the key with the t lowest cards held under an admitted or vetted plan: the key goes to the place `key`. A
    // refusal leaves the place as it stood. A workspace of 4,096 bytes or more is all zero at the end, whatever came; a
    // shorter one is as it was.
    pub fn unlock<P: Checked>(
        &self,
        plan: &P,
        key: &mut [u8],
        workspace: &mut [u8],
    ) -> Result<(), SlotRefusal>
        ensures answer { Unlocked F.Field.ops (P.Checked.plan plan.now) (holding self.now.state) key.old key.new (length workspace.old) result }
        ensures only { OnlyUnlocked F.Field.ops (P.Checked.plan plan.now) (holding self.now.state) key.old key.new (length workspace.old) result }
        ensures deals { GivesKey F.Field.ops (P.Checked.plan plan.now) (holding self.now.state) key.old key.new (length workspace.old) result }
        ensures zeros { workspace.new ≡ cleared workspace.old }
        ensures codes { no_code_held F.Field.ops (P.Checked.plan plan.now).t (holding self.now.state).cards ≡ None }
    {
        // Stays: under `inspect_err` the proof loses the workspace, which the closure borrows, where nothing is refused
        if let Err(refusal) = self.state.check_plan::<F>(&plan.lent()) {
            leave(workspace);
            return Err(refusal);
        }
        self.open_lowest::<P>(plan, key, workspace)
    }
}
