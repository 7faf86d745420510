// From the solved systems to the padded key: word 0 minus all the other words, summed row by row.
ghost use Rattle.std.specs.Prelude.{◌≡◌, ℕ, ◌+◌, ◌*◌, ◌/◌, ◌%◌, ◌<◌, length, slice_index, OnOk, OnErr};
ghost use Rattle.linear.specs.Pivots.{entry};
ghost use Rattle.linear.specs.Systems.{Singular};
ghost use Rattle.sharing.specs.Lent.{lent_plan};
ghost use Rattle.sharing.specs.Systems.{opening_matrix};
ghost use Rattle.opening.specs.Lent.{gathered};
ghost use Rattle.opening.specs.Quorums.{signed, Summed};

use crate::quorum::Quorum;
use field::Field;
use linear::reduction::Unreduced;

// What number `word` of word i adds to the key: itself for word 0, else its opposite.
fn signed_number<F: Field>(i: usize, word: u8) -> u8
    ensures { result ≡ signed F.Field.ops i word }
{
    if i == 0 { word } else { F::opposite(word) }
}

impl<F: Field> Quorum<'_, F> {
    // Adds to the sums what the words of row i, which stand in the solved matrix, add to the key.
    fn add_words(&self, i: usize, matrix: &[u8], sums: &mut [u8])
        requires matrix_long { length matrix.now ≡ self.now.plan.t * (self.now.plan.t + self.now.lanes) }
        requires sums_long { length sums.old ≡ self.now.plan.t * self.now.lanes }
        ensures { (y : ℕ) → y < length sums.old → slice_index sums.new y ≡ F.Field.ops.add (slice_index sums.old y) (signed F.Field.ops i (entry (self.now.plan.t + self.now.lanes) matrix.now (y / self.now.lanes) (self.now.plan.t + y % self.now.lanes))) }
    {
        let t = self.plan.t as usize;
        let b = self.lanes;
        for (y, sum) in sums.iter_mut().enumerate() {
            let word = matrix[y / b * (t + b) + (t + y % b)];
            *sum = F::sum(*sum, signed_number::<F>(i, word));
        }
    }

    // Solves the systems of all rows, one after the other in the matrix, and sums what their words add to the key; refused at
    // the first row whose system is singular.
    pub(crate) fn solve_rows(&self, matrix: &mut [u8], sums: &mut [u8]) -> Result<(), Unreduced>
        requires matrix_long { length matrix.old ≡ self.now.plan.t * (self.now.plan.t + self.now.lanes) }
        requires sums_long { length sums.old ≡ self.now.plan.t * self.now.lanes }
        requires zeros { (y : ℕ) → slice_index sums.old y ≡ 0 }
        ensures summed { OnOk result (Summed F.Field.ops (gathered self.now) self.now.plan.t sums.new) }
        ensures singular { OnErr result ((i : ℕ) × (i < self.now.plan.t) × Singular F.Field.ops self.now.plan.t (opening_matrix (lent_plan self.now.plan) self.now.numbers.now i)) }
    {
        for i in 0..self.plan.t as usize {
            self.solve_row(i, matrix)?;
            self.add_words(i, matrix, sums);
        }
        Ok(())
    }
}
