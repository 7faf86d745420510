// Row i of t cards as a system of equations in its words, laid into a matrix and solved there.
ghost use Rattle.std.specs.Prelude.{◌≡◌, ℕ, ◌+◌, ◌*◌, ◌/◌, ◌%◌, ◌<◌, length, slice_index, OnOk, OnErr};
ghost use Rattle.linear.specs.Systems.{Singular};
ghost use Rattle.sharing.specs.Lent.{lent_plan};
ghost use Rattle.sharing.specs.Systems.{opening_matrix};
ghost use Rattle.opening.specs.Lent.{gathered};
ghost use Rattle.opening.specs.Quorums.{system, Solved};

use crate::quorum::Quorum;
use field::Field;
use linear::reduction::{Unreduced, reduce};
use sharing::matrices::opening_number;

// Stays: tried: with `usize::from` in place of `as` the products of the matrix's size no longer compute in the proofs.
// Stays: by a rule of the project opening is generic functions over lent slices, so the length of the matrix is asked of the calls.
impl<F: Field> Quorum<'_, F> {
    // The number in row m and column c of the system for row i of the cards.
    fn system_number(&self, i: usize, m: usize, c: usize) -> u8
        requires i_below { i < self.now.plan.t }
        requires m_below { m < self.now.plan.t }
        requires c_below { c < self.now.plan.t + self.now.lanes }
        ensures { result ≡ system (gathered self.now) i m c }
    {
        let t = self.plan.t as usize;
        let b = self.lanes;
        if c < t {
            opening_number(&self.plan, self.numbers, i, m, c)
        } else {
            self.data[m * (t * b) + (i * b + (c - t))]
        }
    }

    // Lays the system for row i of the cards into the matrix: t rows, of t coefficients and the numbers of the b lanes each.
    fn lay_system(&self, i: usize, matrix: &mut [u8])
        requires i_below { i < self.now.plan.t }
        requires long { length matrix.old ≡ self.now.plan.t * (self.now.plan.t + self.now.lanes) }
        ensures { (y : ℕ) → y < length matrix.old → slice_index matrix.new y ≡ system (gathered self.now) i (y / (self.now.plan.t + self.now.lanes)) (y % (self.now.plan.t + self.now.lanes)) }
    {
        let width = self.plan.t as usize + self.lanes;
        for (y, number) in matrix.iter_mut().enumerate() {
            *number = self.system_number(i, y / width, y % width);
        }
    }

    // Solves the system for row i of the cards in the matrix; refused if it is singular.
    pub(crate) fn solve_row(&self, i: usize, matrix: &mut [u8]) -> Result<(), Unreduced>
        requires i_below { i < self.now.plan.t }
        requires long { length matrix.old ≡ self.now.plan.t * (self.now.plan.t + self.now.lanes) }
        ensures solved { OnOk result (Solved F.Field.ops (gathered self.now) i matrix.new) }
        ensures singular { OnErr result (Singular F.Field.ops self.now.plan.t (opening_matrix (lent_plan self.now.plan) self.now.numbers.now i)) }
    {
        let t = self.plan.t as usize;
        self.lay_system(i, matrix);
        reduce::<F>(matrix, t, t + self.lanes)
    }
}
