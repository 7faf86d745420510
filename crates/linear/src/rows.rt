// The steps of row reduction on a matrix that stands row by row in a lent slice. Each works from column k on, since the
// columns before it are done.
// Stays: by a rule of the project elimination is generic functions over a lent slice of codes: slice, rows and width go side by side.
ghost use Rattle.std.specs.Prelude.{◌≡◌, ℕ, ◌+◌, ◌*◌, ◌<◌, ◌≤◌, ◌≢◌, length, slice_index, MatchOption};
ghost use Rattle.linear.specs.Pivots.{entry, Swapped, Scaled, Added, cleared, First, Pivotless, Stepped};

use field::Field;

// Exchanges rows `k` and `p`.
pub(crate) fn swap_rows(m: &mut [u8], width: usize, k: usize, p: usize)
    requires { (k * width + width ≤ length m.old) × (p * width + width ≤ length m.old) }
    ensures { Swapped width k p m.old m.new }
{
    for c in k..width {
        m.swap(k * width + c, p * width + c);
    }
}

// Multiplies row `k` by `d`.
pub(crate) fn scale_row<F: Field>(m: &mut [u8], width: usize, k: usize, d: u8)
    requires { k * width + width ≤ length m.old }
    ensures { Scaled F.Field.ops width k d m.old m.new }
{
    // Stays: tried: after `iter_mut` of a part of `m` the proof knows nothing of the numbers in that part.
    for c in k..width {
        m[k * width + c] = F::product(d, m[k * width + c]);
    }
}

// Adds `d` times row `k` to another row `q`.
pub(crate) fn add_row<F: Field>(m: &mut [u8], width: usize, k: usize, q: usize, d: u8)
    requires { (k * width + width ≤ length m.old) × ((q * width + width ≤ length m.old) × (q ≢ k)) }
    ensures { Added F.Field.ops width k q d m.old m.new }
{
    // Stays: two rows of one slice: cut apart by `split_at_mut` they take one case for `q` above `k` and one for below.
    for c in k..width {
        m[q * width + c] = F::sum(m[q * width + c], F::product(d, m[k * width + c]));
    }
}

// Clears column `k` in every row but `k`, where its number is 1, by taking from the row a multiple of row `k`.
pub(crate) fn clear_column<F: Field>(m: &mut [u8], rows: usize, width: usize, k: usize)
    requires { (length m.old ≡ rows * width) × ((k < rows) × (k < width)) }
    ensures { (r c : ℕ) → r < rows → c < width → entry width m.new r c ≡ cleared F.Field.ops width k m.old r c }
{
    for r in 0..rows {
        if r != k {
            let d = F::opposite(m[r * width + k]);
            add_row::<F>(m, width, k, r, d);
        }
    }
}

// The first row from `k` on whose number in column `k` is not 0, and the place of that number in the slice.
pub(crate) fn find_pivot(m: &[u8], rows: usize, width: usize, k: usize) -> Option<(usize, usize)>
    requires { (length m.now ≡ rows * width) × (k < width) }
    ensures { First rows width k m.now result }
{
    let row = (k..rows).find(|row| m[*row * width + k] != 0)?;
    Some((row, row * width + k))
}

// Makes column `k` a unit column by a pivot from row `k` on; without one it answers none and changes nothing. The
// columns before `k` are done, and none of the work goes into them.
pub(crate) fn reduce_column<F: Field>(
    m: &mut [u8],
    rows: usize,
    width: usize,
    k: usize,
) -> Option<()>
    requires shape { (length m.old ≡ rows * width) × ((k < rows) × (k < width)) }
    requires codes { (i : ℕ) → slice_index m.old i < F.Field.ops.size }
    ensures { MatchOption result (Pivotless rows width k m.old × (m.new ≡ m.old)) (λ _. Stepped F.Field.ops rows width k m.old m.new) }
{
    let (row, place) = find_pivot(m, rows, width, k)?;
    let d = F::reciprocal(m[place])?;
    swap_rows(m, width, k, row);
    scale_row::<F>(m, width, k, d);
    clear_column::<F>(m, rows, width, k);
    Some(())
}
