// Fields of numbers that are written as one-byte codes, and what is written once over all of them.
#![tactic(auto)]

pub mod gf256;
pub mod gf97;
pub mod known;
pub mod products;
pub mod refusal;
pub mod rows;

ghost use Rattle.std.specs.Prelude.{◌≡◌};
ghost use Rattle.field.specs.Codes.{Operations, Laws, inverse};

// A finite field of q numbers, q from 16 to 256. A number is handed over as its code, a byte below q; numbers are
// equal exactly when their codes are. Every operation answers for every byte: what is no code gives 0, and has no
// reciprocal. Whoever adds a field gives its operations and shows the laws.
pub trait Field {
    ghost ops: { Operations };

    // The byte that names the field in a line of text.
    fn mark() -> u8
        ensures { result ≡ ops.mark };

    // q, how many numbers there are.
    fn size() -> u16
        ensures { result ≡ ops.size };

    fn sum(a: u8, b: u8) -> u8
        ensures { result ≡ ops.add a b };

    fn opposite(a: u8) -> u8
        ensures { result ≡ ops.neg a };

    fn product(a: u8, b: u8) -> u8
        ensures { result ≡ ops.mul a b };

    // The number whose product with `a` is 1; none for 0 and for what is no code.
    fn reciprocal(a: u8) -> Option<u8>
        ensures { result ≡ inverse ops a };

    ghost lawful: { Laws ops };
}
