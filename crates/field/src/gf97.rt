// Field 02: the numbers modulo 97.
ghost use Rattle.std.specs.Prelude.{◌≡◌, ◌*◌, ◌%◌};
ghost use Rattle.field.specs.Modulo97.{gf97};
ghost use Rattle.field.specs.Modulo97Lemmas.{gf97_laws};

use crate::Field;

const SIZE: u8 = 97;

// The numbers modulo 97, as a field.
#[derive(Clone, Copy)]
pub struct Gf97;

impl Field for Gf97 {
    ghost ops = { gf97 };

    ghost lawful = { gf97_laws };

    fn mark() -> u8 {
        2
    }

    fn size() -> u16 {
        u16::from(SIZE)
    }

    fn sum(a: u8, b: u8) -> u8 {
        if a < SIZE && b < SIZE {
            (a + b) % SIZE
        } else {
            0
        }
    }

    fn opposite(a: u8) -> u8 {
        if a < SIZE { (SIZE - a) % SIZE } else { 0 }
    }

    fn product(a: u8, b: u8) -> u8 {
        if a < SIZE && b < SIZE { times(a, b) } else { 0 }
    }

    // The power 95, since a number other than 0 has the power 96 equal to 1. It takes the same steps for every number.
    fn reciprocal(a: u8) -> Option<u8> {
        let square = times(a, a);
        let fifth = times(times(square, square), a);
        let tenth = times(fifth, fifth);
        let twentieth = times(tenth, tenth);
        let fortieth = times(twentieth, twentieth);
        let power = times(times(times(fortieth, fortieth), tenth), fifth);
        if a == 0 || a >= SIZE {
            None
        } else {
            Some(power)
        }
    }
}

// The remainder of the product by 97.
fn times(a: u8, b: u8) -> u8
    ensures { result ≡ (a * b) % 97 }
{
    (u16::from(a) * u16::from(b) % 97) as u8
}

#[cfg(test)]
mod tests {
    use super::*;

    // Two numbers, their sum and their product modulo 97.
    #[test]
    fn sums_and_products(rt: HostRuntime) {
        let table = [
            (0, 0, 0, 0),
            (0, 96, 96, 0),
            (96, 96, 95, 1),
            (1, 96, 0, 96),
            (48, 49, 0, 24),
            (49, 2, 51, 1),
            (50, 60, 13, 90),
            (41, 19, 60, 3),
            (50, 83, 36, 76),
            (6, 9, 15, 54),
            (68, 12, 80, 40),
            (46, 74, 23, 9),
            (7, 64, 71, 60),
            (27, 4, 31, 11),
            (11, 55, 66, 23),
            (53, 8, 61, 36),
        ];
        for (a, b, sum, product) in table {
            assert_eq!(rt; Gf97::sum(a, b), sum);
            assert_eq!(rt; Gf97::product(a, b), product);
        }
    }

    #[test]
    fn reciprocals_and_no_codes(rt: HostRuntime) {
        assert_eq!(rt; Gf97::reciprocal(2), Some(49));
        assert_eq!(rt; Gf97::reciprocal(96), Some(96));
        assert_eq!(rt; Gf97::reciprocal(0), None);
        assert_eq!(rt; Gf97::reciprocal(97), None);
        assert_eq!(rt; Gf97::opposite(1), 96);
        assert_eq!(rt; Gf97::sum(97, 1), 0);
        assert_eq!(rt; Gf97::product(1, 200), 0);
    }
}
