// Casting a word of t numbers to n numbers: number c is row c of a plan times the word. The first t rows are unit rows, so
// that the cast begins with the word itself; the others are given, one after another, t numbers each.
ghost use Rattle.std.specs.Prelude.{◌≡◌, true, false, length};
ghost use Rattle.linear.specs.Casting.{cast, RowsGiven, Casts};
ghost use Rattle.linear.specs.Systems.{numbers};

use field::Field;
use field::products::sum_of_products;

// Number `c` of the cast of a word. What the given rows lack counts as 0.
pub fn cast_number<F: Field>(given: &[u8], word: &[u8], c: usize) -> u8
    ensures { result ≡ cast F.Field.ops (length word.now) given.now (numbers word.now) c }
{
    let t = word.len();
    if c < t {
        return F::product(1, word[c]);
    }
    let from = (c - t).saturating_mul(t).min(given.len());
    sum_of_products::<F>(&given[from..], word)
}

// Whether `given` numbers are as many as the rows from t on hold in a plan of n rows of t numbers.
fn is_sized(given: usize, t: usize, n: usize) -> bool
    ensures yes { result ≡ true → RowsGiven given t n }
    ensures no { result ≡ false → RowsGiven given t n → ⊥ }
{
    n.checked_sub(t).and_then(|rows| rows.checked_mul(t)) == Some(given)
}

// The given numbers are not as many as the rows from t on hold.
#[derive(Clone, Copy, PartialEq, Eq, Debug)]
pub struct UnfitRows;

// Casts the word to as many numbers as `out` holds. Refused, with nothing changed, if the given numbers are not as many as
// the rows from t on hold.
pub fn cast_word<F: Field>(given: &[u8], word: &[u8], out: &mut [u8]) -> Result<(), UnfitRows>
    ensures { Casts F.Field.ops given.now word.now out.old out.new result }
{
    if !is_sized(given.len(), word.len(), out.len()) {
        return Err(UnfitRows);
    }
    for (c, number) in out.iter_mut().enumerate() {
        *number = cast_number::<F>(given, word, c);
    }
    Ok(())
}
