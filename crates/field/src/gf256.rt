// Field 01: bytes under the modulus 11B of FIPS 197. No branch and no index depends on the numbers, but for the answer that
// 0 has no reciprocal.
ghost use Rattle.std.specs.Prelude.{◌≡◌, ◌*◌, ◌<◌};
ghost use Rattle.field.specs.Polynomials.{times, OnlyRemainder, gf256};
ghost use Rattle.field.specs.Bytes.{gf256_laws};

use super::Field;

#[derive(Clone, Copy)]
pub struct Gf256;

// `a` where `bit` is 1, and 0 where it is 0.
fn kept(a: u8, bit: u8) -> u8
    requires { bit < 2 }
    ensures { result ≡ a * bit }
{
    a & bit.wrapping_neg()
}

// `a` times x, the polynomial 2.
fn doubled(a: u8) -> u8
    ensures { result ≡ gf256.mul 2 a }
{
    (a << 1) ^ kept(0x1B, a >> 7)
}

impl Field for Gf256 {
    ghost ops = { gf256 };

    ghost lawful = { gf256_laws };

    fn mark() -> u8 {
        1
    }

    fn size() -> u16 {
        256
    }

    fn sum(a: u8, b: u8) -> u8 {
        a ^ b
    }

    fn opposite(a: u8) -> u8 {
        a
    }

    // The sum of `a` times x^i over the bits i of `b`, the highest first.
    fn product(a: u8, b: u8) -> u8
        ensures value { result ≡ gf256.mul a b }
        ensures only { OnlyRemainder (times 8 a b) result }
    {
        let mut product = 0;
        for i in (0..8u8).rev() {
            product = doubled(product) ^ kept(a, (b >> i) & 1);
        }
        product
    }

    // `a` to the power 254: each turn takes the power k to 2·k + 1, from 0 to 127, and the square doubles it.
    fn reciprocal(a: u8) -> Option<u8> {
        let mut power = 1;
        for _ in 0..7u8 {
            power = Self::product(Self::product(power, power), a);
        }
        let inverse = Self::product(power, power);
        if a == 0 { None } else { Some(inverse) }
    }
}

#[cfg(test)]
mod tests {
    use super::*;

    #[test]
    fn products(rt: HostRuntime) {
        assert_eq!(rt; Gf256::product(0x57, 0x83), 0xC1);
        assert_eq!(rt; Gf256::product(0x57, 0x13), 0xFE);
    }

    #[test]
    fn doublings(rt: HostRuntime) {
        assert_eq!(rt; doubled(0x57), 0xAE);
        assert_eq!(rt; doubled(0xAE), 0x47);
        assert_eq!(rt; doubled(0x47), 0x8E);
        assert_eq!(rt; doubled(0x8E), 0x07);
    }

    #[test]
    fn reciprocals(rt: HostRuntime) {
        assert_eq!(rt; Gf256::reciprocal(0x02), Some(0x8D));
        assert_eq!(rt; Gf256::reciprocal(0x03), Some(0xF6));
        assert_eq!(rt; Gf256::reciprocal(0x00), None);
    }
}
