// Checking a plan that was read.
ghost use Rattle.plan_check.specs.Plans.{admitted_plan, vetted_plan};
ghost use Rattle.programs.specs.Answers.{Tells};
ghost use Rattle.programs.specs.Vetting.{Fit, Passed, Unadmitted, Unvetted, room};
ghost use Rattle.sharing.specs.Scheme.{plan_of};
ghost use Rattle.std.specs.Prelude.{◌≡◌, length};

use crate::plan_line::PlanLine;
use crate::stop::Stop;
use field::Field;
use plan_check::plan::{Admitted, Drafted, Vetted};

// How many bytes are lent to a check.
pub(crate) const ROOM: usize = 4096;

// Admits a plan, with a workspace of the right size.
pub(crate) fn admit_plan<'a, F: Field>(
    plan: PlanLine,
    rows: &'a [u8],
    workspace: &mut [u8],
) -> Result<Admitted<'a>, Stop>
    requires { length workspace.old ≡ room }
    ensures { Tells result (λ v. Fit F.Field.ops (plan_of plan.t plan.n rows.now) × (admitted_plan v ≡ plan_of plan.t plan.n rows.now)) (λ a. Unadmitted F.Field.ops (plan_of plan.t plan.n rows.now) a) }
{
    Ok(Drafted::new(plan.t, plan.n, rows).admit::<F>(workspace)?)
}

// Admits a plan and vets it.
pub(crate) fn vet_plan<'a, F: Field>(plan: PlanLine, rows: &'a [u8]) -> Result<Vetted<'a>, Stop>
    ensures { Tells result (λ v. Passed F.Field.ops (plan_of plan.t plan.n rows.now) × (vetted_plan v ≡ plan_of plan.t plan.n rows.now)) (λ a. Unvetted F.Field.ops (plan_of plan.t plan.n rows.now) a) }
{
    let mut workspace = [0u8; ROOM];
    let admitted = admit_plan::<F>(plan, rows, &mut workspace)?;
    Ok(admitted.vet::<F>(&mut workspace)?)
}
