// Row reduction, in place, of a matrix that stands row by row in a lent slice.
ghost use Rattle.std.specs.Prelude.{◌≡◌, ℕ, ◌<◌, true, false, length, slice_index};
ghost use Rattle.linear.specs.Systems.{Alternative};
ghost use Rattle.linear.specs.Reductions.{Matrix, Reduced};

use crate::rows::reduce_column;
use field::Field;

// Why a matrix is not reduced.
#[derive(Clone, Copy, PartialEq, Eq, Debug)]
pub enum Unreduced {
    // The slice is no such matrix of codes.
    NoMatrix,
    // The first column without a pivot.
    NoPivot(usize),
}

// Whether every byte of `m` is a code.
fn all_codes<F: Field>(m: &[u8]) -> bool
    ensures yes { result ≡ true → (i : ℕ) → i < length m.now → slice_index m.now i < F.Field.ops.size }
    ensures no { result ≡ false → ((i : ℕ) → i < length m.now → slice_index m.now i < F.Field.ops.size) → ⊥ }
{
    m.iter().all(|x| u16::from(*x) < F::size())
}

// Whether `m` is a matrix of codes of `rows` rows and `width` columns, at least as many as rows.
fn is_matrix<F: Field>(m: &[u8], rows: usize, width: usize) -> bool
    ensures yes { result ≡ true → Matrix F.Field.ops rows width m.now }
    ensures no { result ≡ false → Matrix F.Field.ops rows width m.now → ⊥ }
{
    rows <= width && rows.checked_mul(width) == Some(m.len()) && all_codes::<F>(m)
}

// Reduces the matrix of `rows` rows and `width` columns in `m`: its first `rows` columns are the coefficients of a system,
// the columns after them right sides. Ok: each right side has given way to its solution. Refused, with nothing changed,
// if `m` is no such matrix of codes. At most rows² × width products and one reciprocal a column, since no step works on
// columns that are done.
pub fn reduce<F: Field>(m: &mut [u8], rows: usize, width: usize) -> Result<(), Unreduced>
    ensures reduced { Reduced F.Field.ops rows width m.old m.new result }
    ensures alternative { Alternative F.Field.ops }
{
    if !is_matrix::<F>(m, rows, width) {
        return Err(Unreduced::NoMatrix);
    }
    for k in 0..rows {
        reduce_column::<F>(m, rows, width, k).ok_or(Unreduced::NoPivot(k))?;
    }
    Ok(())
}
