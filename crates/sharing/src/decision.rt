// Whether one group of cards opens, and whether it hides, by row reduction in a lent workspace.
// Stays: by a rule of the project vetting is generic functions over lent slices, so the room of the workspace is asked of the calls.
ghost use Rattle.std.specs.Prelude.{◌≡◌, ◌-◌, ◌*◌, ◌<◌, ◌≤◌, true, false, length, drop};
ghost use Rattle.linear.specs.Pivots.{entry};
ghost use Rattle.linear.specs.Reductions.{Matrix};
ghost use Rattle.sharing.specs.Groups.{Group};
ghost use Rattle.sharing.specs.Lent.{lent_plan};
ghost use Rattle.sharing.specs.Secrecy.{Opens, Hides};
ghost use Rattle.sharing.specs.Systems.{OnlyZero, opening_matrix, lane_size};

use crate::matrices::{lay_hiding, lay_opening};
use crate::sound::SoundPlan;
use field::Field;
use linear::reduction::reduce;

// Whether a square matrix of codes sends no vector but zero to zero. It is reduced in place.
fn sends_only_zero<F: Field>(matrix: &mut [u8], size: usize) -> bool
    requires { Matrix F.Field.ops size size matrix.old }
    ensures yes { result ≡ true → OnlyZero F.Field.ops size (entry size matrix.old) }
    ensures no { result ≡ false → OnlyZero F.Field.ops size (entry size matrix.old) → ⊥ }
{
    reduce::<F>(matrix, size, size).is_ok()
}

// Whether row `i` of a group's cards sends no word but zero to zeros.
fn row_opens<F: Field>(plan: &SoundPlan<'_, F>, group: &[u8], i: usize, matrix: &mut [u8]) -> bool
    requires sizes { (i < plan.now.plan.t) × ((length group.now ≡ plan.now.plan.t) × (length matrix.old ≡ plan.now.plan.t * plan.now.plan.t)) }
    ensures yes { result ≡ true → OnlyZero F.Field.ops plan.now.plan.t (opening_matrix (lent_plan plan.now.plan) group.now i) }
    ensures no { result ≡ false → OnlyZero F.Field.ops plan.now.plan.t (opening_matrix (lent_plan plan.now.plan) group.now i) → ⊥ }
{
    lay_opening(plan, group, i, matrix);
    sends_only_zero::<F>(matrix, usize::from(plan.plan.t))
}

// Whether a group of t cards of a plan opens. The workspace holds traces of the work, in its first t × t bytes.
pub fn group_opens<F: Field>(plan: &SoundPlan<'_, F>, group: &[u8], workspace: &mut [u8]) -> bool
    requires cards { Group plan.now.plan.n plan.now.plan.t group.now }
    requires room { 4096 ≤ length workspace.old }
    ensures yes { result ≡ true → Opens F.Field.ops (lent_plan plan.now.plan) group.now }
    ensures no { result ≡ false → Opens F.Field.ops (lent_plan plan.now.plan) group.now → ⊥ }
    ensures rest { drop (plan.now.plan.t * plan.now.plan.t) workspace.new ≡ drop (plan.now.plan.t * plan.now.plan.t) workspace.old }
{
    let t = usize::from(plan.plan.t);
    let matrix = &mut workspace[..t * t];
    // Stays: under `all` a closure would write into the matrix that it captures, and the proof would not know what it answered
    for i in 0..t {
        if !row_opens(plan, group, i, matrix) {
            return false;
        }
    }
    true
}

// Whether a group of t − 1 cards of a plan hides. The workspace holds traces of the work, in as many of its first bytes as
// the hiding matrix fills.
pub fn group_hides<F: Field>(plan: &SoundPlan<'_, F>, group: &[u8], workspace: &mut [u8]) -> bool
    requires cards { Group plan.now.plan.n (plan.now.plan.t - 1) group.now }
    requires room { 4096 ≤ length workspace.old }
    ensures yes { result ≡ true → Hides F.Field.ops (lent_plan plan.now.plan) group.now }
    ensures no { result ≡ false → Hides F.Field.ops (lent_plan plan.now.plan) group.now → ⊥ }
    ensures rest { drop (lane_size (lent_plan plan.now.plan) * lane_size (lent_plan plan.now.plan)) workspace.new ≡ drop (lane_size (lent_plan plan.now.plan) * lane_size (lent_plan plan.now.plan)) workspace.old }
{
    let t = usize::from(plan.plan.t);
    let size = (t - 1) * t;
    let matrix = &mut workspace[..size * size];
    lay_hiding(plan, group, matrix);
    sends_only_zero::<F>(matrix, size)
}

#[cfg(test)]
mod tests {
    use super::*;
    use crate::plan::LentPlan;
    use field::gf97::Gf97;
    use std::marker::PhantomData;

    // Two of three over the numbers modulo 97: cards 1 and 2 open unless their rows are the same, and card 2 alone hides.
    #[test]
    fn two_of_three(rt: HostRuntime) {
        let mut workspace = [0u8; 4096];
        let plan = SoundPlan::<Gf97> {
            plan: LentPlan {
                t: 2,
                n: 3,
                rows: &[49, 1],
            },
            field: PhantomData,
        };
        let same_rows = SoundPlan::<Gf97> {
            plan: LentPlan {
                t: 2,
                n: 3,
                rows: &[0, 1],
            },
            field: PhantomData,
        };
        assert!(rt; group_opens(&plan, &[1, 2], &mut workspace));
        assert!(rt; !group_opens(&same_rows, &[1, 2], &mut workspace));
        assert!(rt; group_hides(&plan, &[2], &mut workspace));
    }

    // Three of four with Cauchy rows: cards 0 and 1 hide, cards 0 and 2 do not.
    #[test]
    fn three_of_four(rt: HostRuntime) {
        let mut workspace = [0u8; 4096];
        let plan = SoundPlan::<Gf97> {
            plan: LentPlan {
                t: 3,
                n: 4,
                rows: &[65, 49, 1],
            },
            field: PhantomData,
        };
        assert!(rt; group_opens(&plan, &[0, 2, 3], &mut workspace));
        assert!(rt; group_hides(&plan, &[0, 1], &mut workspace));
        assert!(rt; !group_hides(&plan, &[0, 2], &mut workspace));
    }
}
