// Systems and casts worked by hand, in the field of the numbers modulo 97.
use crate::casting::{UnfitRows, cast_word};
use crate::reduction::{Unreduced, reduce};
use field::gf97::Gf97;

// 2x + y = 5 and x + 3y = 10 give x = 1 and y = 3.
#[test]
fn two_equations(rt: HostRuntime) {
    let mut m = [2, 1, 5, 1, 3, 10];
    assert_eq!(rt; reduce::<Gf97>(&mut m, 2, 3), Ok(()));
    assert_eq!(rt; m, [1, 0, 1, 0, 1, 3]);
}

// The first pivot stands in the second row.
#[test]
fn rows_exchanged(rt: HostRuntime) {
    let mut m = [0, 1, 7, 1, 0, 9];
    assert_eq!(rt; reduce::<Gf97>(&mut m, 2, 3), Ok(()));
    assert_eq!(rt; m, [1, 0, 9, 0, 1, 7]);
}

// Against the unit matrix the right sides give way to the inverse matrix.
#[test]
fn inverse_of_three(rt: HostRuntime) {
    let mut m = [1, 2, 3, 1, 0, 0, 0, 1, 4, 0, 1, 0, 5, 6, 0, 0, 0, 1];
    assert_eq!(rt; reduce::<Gf97>(&mut m, 3, 6), Ok(()));
    assert_eq!(rt;
        m,
        [1, 0, 0, 73, 18, 5, 0, 1, 0, 20, 82, 93, 0, 0, 1, 92, 4, 1]
    );
}

// The second row is twice the first, so that the second column has no pivot.
#[test]
fn dependent_rows(rt: HostRuntime) {
    let mut m = [1, 2, 2, 4];
    assert_eq!(rt; reduce::<Gf97>(&mut m, 2, 2), Err(Unreduced::NoPivot(1)));
}

// Too short a slice, more rows than columns, and a byte that is no code are refused, and nothing is changed.
#[test]
fn refusals(rt: HostRuntime) {
    let mut m = [1, 2, 3, 97];
    assert_eq!(rt; reduce::<Gf97>(&mut m, 2, 3), Err(Unreduced::NoMatrix));
    assert_eq!(rt; reduce::<Gf97>(&mut m, 4, 1), Err(Unreduced::NoMatrix));
    assert_eq!(rt; reduce::<Gf97>(&mut m, 2, 2), Err(Unreduced::NoMatrix));
    assert_eq!(rt; m, [1, 2, 3, 97]);
}

// 49 · 10 + 1 · 20 is 25 modulo 97.
#[test]
fn word_cast(rt: HostRuntime) {
    let mut out = [9, 9, 9];
    assert_eq!(rt; cast_word::<Gf97>(&[49, 1], &[10, 20], &mut out), Ok(()));
    assert_eq!(rt; out, [10, 20, 25]);
    assert_eq!(rt;
        cast_word::<Gf97>(&[49], &[10, 20], &mut out),
        Err(UnfitRows)
    );
    assert_eq!(rt; out, [10, 20, 25]);
}
