// Plans worked out by hand, in both fields.
use crate::plan::Drafted;
use field::Field;
use field::gf97::Gf97;
use field::gf256::Gf256;
use field::rows::cauchy_rows;
use std::test::Fail;

// The number and the carried value of the first refusal that Admit and then Vet have for a plan; zeros if both grant it.
fn verdict<F: Field>(t: u8, n: u8, rows: &[u8], workspace: &mut [u8]) -> (u8, u16) {
    match Drafted::new(t, n, rows).admit::<F>(workspace) {
        Err(refused) => (refused.refusal.number(), refused.refusal.carried()),
        Ok(admitted) => match admitted.vet::<F>(workspace) {
            Err(refused) => (refused.refusal.number(), refused.refusal.carried()),
            Ok(_) => (0, 0),
        },
    }
}

#[test]
fn groups_are_named(rt: HostRuntime) -> Result<(), Fail> {
    let mut workspace = [7u8; 4096];
    assert_eq!(rt;
        verdict::<Gf256>(2, 3, &[1, 0], &mut workspace),
        (0x15, 0x05)
    );
    assert_eq!(rt;
        verdict::<Gf256>(3, 4, &[1, 1, 1], &mut workspace),
        (0x16, 0x05)
    );
    assert_eq!(rt;
        verdict::<Gf97>(3, 6, &[1, 1, 1, 1, 2, 3, 1, 3, 4], &mut workspace),
        (0x16, 0x09)
    );
    let mut rows = [0u8; 9];
    cauchy_rows::<Gf97>(3, 6, &mut rows)?;
    assert_eq!(rt; verdict::<Gf97>(3, 6, &rows, &mut workspace), (0, 0));
    assert_eq!(rt; workspace, [0u8; 4096]);
    Ok(())
}

#[test]
fn faults_come_in_order(rt: HostRuntime) {
    let mut short = [7u8; 4095];
    assert_eq!(rt; verdict::<Gf97>(1, 9, &[], &mut short), (0x10, 0));
    assert_eq!(rt; verdict::<Gf97>(2, 3, &[97], &mut short), (0x11, 0));
    assert_eq!(rt; verdict::<Gf97>(2, 3, &[96, 97], &mut short), (0x12, 1));
    assert_eq!(rt; verdict::<Gf97>(2, 3, &[1, 1], &mut short), (0x13, 0));
    assert_eq!(rt; short, [7u8; 4095]);
    let mut workspace = [7u8; 4097];
    assert_eq!(rt; verdict::<Gf97>(2, 3, &[96, 97], &mut workspace), (0x12, 1));
    assert_eq!(rt; workspace, [0u8; 4097]);
}
