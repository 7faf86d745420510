// A sum of products over any field: a row of numbers times a word.
ghost use Rattle.std.specs.Prelude.{◌≡◌, min, length, slice_index};
ghost use Rattle.field.specs.Codes.{sum};

use crate::Field;

// The sum over p of number p of the row times number p of the word, as far as both reach.
pub fn sum_of_products<F: Field>(row: &[u8], word: &[u8]) -> u8
    ensures { result ≡ sum F.Field.ops (min (length row.now) (length word.now)) (λ p. F.Field.ops.mul (slice_index row.now p) (slice_index word.now p)) }
{
    let mut total = 0;
    for (a, x) in row.iter().zip(word) {
        total = F::sum(total, F::product(*a, *x));
    }
    total
}
