// What is wrong with a plan in a field, asked first by every call that takes one, and the searches in a list of numbers.
ghost use Rattle.std.specs.Prelude.{◌≡◌};
ghost use Rattle.field.specs.Refusals.{foremost, refused};
ghost use Rattle.sharing.specs.Lent.{lent_plan};
ghost use Rattle.plan_check.specs.Faults.{first_no_code, first_not_zero, faults};

use field::Field;
use field::refusal::Refusal;
use field::rows::within_limits;
use sharing::plan::LentPlan;

// The index of the first byte that is no code of the field.
pub fn first_no_code<F: Field>(bytes: &[u8]) -> Option<usize>
    ensures { result ≡ first_no_code F.Field.ops bytes.now }
{
    let size = F::size();
    bytes.iter().position(|byte| u16::from(*byte) >= size)
}

// The index of the first number, from an index on, that is not zero.
pub fn first_not_zero(numbers: &[u8], from: usize) -> Option<usize>
    ensures { result ≡ first_not_zero from numbers.now }
{
    numbers
        .iter()
        .skip(from)
        .position(|number| *number != 0)
        .map(|i| from + i)
}

// Grants a plan without a fault, else names the first: its limits, then how many numbers its rows have, then a byte in them
// that is no code.
pub fn faultless<F: Field>(plan: &LentPlan<'_>) -> Result<(), Refusal>
    ensures { refused result ≡ foremost (faults F.Field.ops (lent_plan plan.now)) }
{
    if !within_limits(plan.t, plan.n) {
        return Err(Refusal::PlanLimits);
    }
    if plan.rows.len() != usize::from(plan.n - plan.t) * usize::from(plan.t) {
        return Err(Refusal::RowsLength);
    }
    first_no_code::<F>(plan.rows).map_or(Ok(()), |index| Err(Refusal::RowCode(index as u16)))
}
