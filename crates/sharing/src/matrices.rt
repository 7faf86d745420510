// The matrices of the systems behind opening and hiding, laid out row by row in a lent slice.
ghost use Rattle.std.specs.Prelude.{◌≡◌, ◌+◌, ◌-◌, ◌*◌, ◌/◌, ◌%◌, ◌<◌, ◌≤◌, length};
ghost use Rattle.linear.specs.Casting.{row};
ghost use Rattle.sharing.specs.Lent.{lent_plan};
ghost use Rattle.sharing.specs.Systems.{opening_matrix, lane_size, hiding_matrix, laid_out};

use crate::plan::LentPlan;
use crate::sound::SoundPlan;
use field::Field;

// Place `p` of row `c` of a plan.
fn row_number(plan: &LentPlan<'_>, c: usize, p: usize) -> u8
    requires { plan.now.t ≤ c → (c - plan.now.t) * plan.now.t + p < length plan.now.rows.now }
    ensures { result ≡ row plan.now.t plan.now.rows.now c p }
{
    let t = usize::from(plan.t);
    if c < t {
        u8::from(c == p)
    } else {
        plan.rows[(c - t) * t + p]
    }
}

// Place `c` of the row that the group's card number `m` has in row `i` of the cards.
pub fn opening_number(plan: &LentPlan<'_>, group: &[u8], i: usize, m: usize, c: usize) -> u8
    requires limits { (i < plan.now.t) × ((plan.now.t ≤ plan.now.n) × ((plan.now.n ≤ 8) × (c < plan.now.t))) }
    requires lengths { (length plan.now.rows.now ≡ (plan.now.n - plan.now.t) * plan.now.t) × (m < length group.now) }
    ensures { result ≡ opening_matrix (lent_plan plan.now) group.now i m c }
{
    row_number(plan, (usize::from(group[m]) + i) % usize::from(plan.n), c)
}

// Lays out the opening matrix of a group for row `i` of the cards.
pub(crate) fn lay_opening<F: Field>(
    plan: &SoundPlan<'_, F>,
    group: &[u8],
    i: usize,
    matrix: &mut [u8],
)
    requires sizes { (i < plan.now.plan.t) × ((length group.now ≡ plan.now.plan.t) × (length matrix.old ≡ plan.now.plan.t * plan.now.plan.t)) }
    ensures { matrix.new ≡ laid_out plan.now.plan.t (opening_matrix (lent_plan plan.now.plan) group.now i) }
{
    let t = usize::from(plan.plan.t);
    for (x, number) in matrix.iter_mut().enumerate() {
        *number = opening_number(&plan.plan, group, i, x / t, x % t);
    }
}

// The entry of the hiding matrix in equation `r` at unknown `u`.
fn hiding_number<F: Field>(plan: &SoundPlan<'_, F>, group: &[u8], r: usize, u: usize) -> u8
    requires equation { r / plan.now.plan.t < length group.now }
    requires unknown { u < plan.now.plan.t * plan.now.plan.t }
    ensures { result ≡ hiding_matrix (lent_plan plan.now.plan) group.now r u }
{
    let t = usize::from(plan.plan.t);
    let i = r % t;
    if i == 0 || i == u / t + 1 {
        opening_number(&plan.plan, group, i, r / t, u % t)
    } else {
        0
    }
}

// Lays out the hiding matrix of a group.
pub(crate) fn lay_hiding<F: Field>(plan: &SoundPlan<'_, F>, group: &[u8], matrix: &mut [u8])
    requires sizes { (length group.now ≡ plan.now.plan.t - 1) × (length matrix.old ≡ lane_size (lent_plan plan.now.plan) * lane_size (lent_plan plan.now.plan)) }
    ensures { matrix.new ≡ laid_out (lane_size (lent_plan plan.now.plan)) (hiding_matrix (lent_plan plan.now.plan) group.now) }
{
    let t = usize::from(plan.plan.t);
    let size = (t - 1) * t;
    for (x, number) in matrix.iter_mut().enumerate() {
        *number = hiding_number(plan, group, x / size, x % size);
    }
}
