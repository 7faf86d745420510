// Cauchy rows: the rows of a plan that are drafted from the field alone.
ghost use Rattle.std.specs.Prelude.{◌≡◌, length, Ok, Err};
ghost use Rattle.field.specs.Refusals.{refused, foremost};
ghost use Rattle.field.specs.Rows.{within, shape, cauchy, cauchy_rows, Reciprocals};

use crate::Field;
use crate::refusal::Refusal;

// Whether t and n are within the limits of a plan, 2 ≤ t ≤ n ≤ 8.
pub fn within_limits(t: u8, n: u8) -> bool
    ensures { result ≡ within t n }
{
    2 <= t && t <= n && n <= 8
}

// The number of a Cauchy row c at place p: the reciprocal of c minus p, and 0 where there is none.
pub fn cauchy_number<F: Field>(c: u8, p: u8) -> u8
    ensures { result ≡ cauchy F.Field.ops c p }
{
    F::reciprocal(F::sum(c, F::opposite(p))).unwrap_or(0)
}

// Fills the place with the Cauchy rows t to n − 1 of a plan, one after the other. A refusal leaves the place as it stood.
pub fn cauchy_rows<F: Field>(t: u8, n: u8, rows: &mut [u8]) -> Result<(), Refusal>
    ensures refusal { refused result ≡ foremost (shape t n (length rows.old)) }
    ensures filled { rows.new ≡ elim result [ Ok _ ↦ cauchy_rows F.Field.ops t n | Err _ ↦ rows.old ] }
    ensures reciprocals { elim result [ Ok _ ↦ Reciprocals F.Field.ops t n rows.new | Err _ ↦ Unit {0} ] }
{
    if !within_limits(t, n) {
        return Err(Refusal::PlanLimits);
    }
    let width = usize::from(t);
    if rows.len() != usize::from(n - t) * width {
        return Err(Refusal::RowsLength);
    }
    for (i, number) in rows.iter_mut().enumerate() {
        *number = cauchy_number::<F>(t + (i / width) as u8, (i % width) as u8);
    }
    Ok(())
}

#[cfg(test)]
mod tests {
    use super::*;
    use crate::gf97::Gf97;
    use crate::gf256::Gf256;

    #[test]
    fn three_of_five(rt: HostRuntime) {
        let mut rows = [0u8; 6];
        assert_eq!(rt; cauchy_rows::<Gf256>(3, 5, &mut rows), Ok(()));
        assert_eq!(rt; rows, [0xF6, 0x8D, 0x01, 0xCB, 0x52, 0x7B]);
        assert_eq!(rt; cauchy_rows::<Gf97>(3, 5, &mut rows), Ok(()));
        assert_eq!(rt; rows, [65, 49, 1, 73, 65, 49]);
    }

    // t and n at and beyond the limits, and a place of another length: the place is left as it stood.
    #[test]
    fn refused(rt: HostRuntime) {
        let mut rows = [7u8; 6];
        assert_eq!(rt;
            cauchy_rows::<Gf97>(1, 3, &mut rows),
            Err(Refusal::PlanLimits)
        );
        assert_eq!(rt;
            cauchy_rows::<Gf97>(4, 3, &mut rows),
            Err(Refusal::PlanLimits)
        );
        assert_eq!(rt;
            cauchy_rows::<Gf97>(8, 9, &mut rows),
            Err(Refusal::PlanLimits)
        );
        assert_eq!(rt;
            cauchy_rows::<Gf97>(8, 8, &mut rows),
            Err(Refusal::RowsLength)
        );
        assert_eq!(rt;
            cauchy_rows::<Gf97>(3, 6, &mut rows),
            Err(Refusal::RowsLength)
        );
        assert_eq!(rt; rows, [7; 6]);
    }
}
