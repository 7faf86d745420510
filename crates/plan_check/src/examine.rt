// The body that Admit and Vet share: the plan's fault, the workspace, then the groups, under a guard.
ghost use Rattle.std.specs.Prelude.{◌≡◌, length};
ghost use Rattle.field.specs.Refusals.{refused};
ghost use Rattle.sharing.specs.Lent.{lent_plan};
ghost use Rattle.plan_check.specs.Checks.{Allowed, cleared};

use crate::fault::faultless;
use crate::groups::first_failing;
use crate::guard::Guard;
use crate::property::Property;
use field::Field;
use field::refusal::Refusal;
use sharing::plan::LentPlan;
use sharing::sound::SoundPlan;
use std::marker::PhantomData;

// How many bytes of workspace a check wants.
const WORKSPACE: usize = 4096;

// Grants a plan that has the property, else refuses. The fault stands first in the table, and yet a workspace that is long
// enough is zero in the end even then: so the guard is made before the fault is handed out.
pub(crate) fn examine<F: Field>(
    property: Property,
    plan: &LentPlan<'_>,
    workspace: &mut [u8],
) -> Result<(), Refusal>
    ensures answer { Allowed property F.Field.ops (lent_plan plan.now) (length workspace.old) (refused result) }
    ensures workspace { workspace.new ≡ cleared workspace.old }
{
    let faultless = faultless::<F>(plan);
    if workspace.len() < WORKSPACE {
        return faultless.and(Err(Refusal::Workspace));
    }
    let guard = Guard { bytes: workspace };
    faultless?;
    let sound = SoundPlan::<F> {
        plan: *plan,
        field: PhantomData,
    };
    first_failing(property, &sound, guard.bytes)
}
