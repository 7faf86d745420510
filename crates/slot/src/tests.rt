// A slot on cards of a worked deal: two of three cards open a key of two numbers.
use crate::phase::Phase;
use crate::refusal::SlotRefusal;
use crate::slot::Slot;
use field::Field;
use field::gf97::Gf97;
use field::gf256::Gf256;
use plan_check::plan::Drafted;

// The number of an answer, 0 where nothing is refused.
fn number(answer: Result<(), SlotRefusal>) -> u8 {
    answer.err().map_or(0, SlotRefusal::number)
}

fn is_ready(slot: &Slot<Gf256>) -> bool {
    matches!(slot.phase(), Phase::Ready(_))
}

#[test]
fn cards_come_and_go(rt: HostRuntime) {
    let mut slot: Slot<Gf256> = Slot::new();
    assert_eq!(rt;
        number(slot.insert(b"03 01 0000002A 02 03 01 02 3FA0\n")),
        0
    );
    assert!(rt; !is_ready(&slot));
    assert_eq!(rt;
        number(slot.insert(b"03 01 0000002A 02 03 01 02 3FA0\n")),
        0x51
    );
    assert_eq!(rt;
        number(slot.insert(b"03 01 0000002A 02 03 02 02 4CA0\n")),
        0
    );
    assert!(rt; is_ready(&slot));
    assert_eq!(rt; number(slot.pull(0)), 0x53);
    assert_eq!(rt; number(slot.pull(1)), 0);
    assert!(rt; !is_ready(&slot));
}

#[test]
fn refused_texts(rt: HostRuntime) {
    let mut slot: Slot<Gf256> = Slot::new();
    assert_eq!(rt; number(slot.insert(b"")), 0x40);
    assert_eq!(rt;
        number(slot.insert(b"03 02 0000002A 02 03 01 02 3FA0\n")),
        0x44
    );
    assert_eq!(rt;
        number(slot.insert(b"03 01 0000002A 02 03 01 02 3FA0\n0")),
        0x46
    );
    assert_eq!(rt;
        number(slot.insert(b"03 01 0000002A 02 03 01 02 3FA0\n")),
        0
    );
    assert_eq!(rt;
        number(slot.insert(b"03 01 0000002B 02 03 02 02 4CA0\n")),
        0x50
    );
    slot.clear();
    assert_eq!(rt;
        number(slot.insert(b"03 01 0000002B 02 03 02 02 4CA0\n")),
        0
    );
}

// What Unlock refuses under a plan that was admitted over bytes, as a number and what it carries; zeros where it opens.
fn unlocked<F: Field>(
    slot: &Slot<F>,
    n: u8,
    rows: &[u8],
    key: &mut [u8],
    workspace: &mut [u8],
) -> (u8, usize) {
    let Ok(plan) = Drafted::new(2, n, rows).admit::<Gf256>(workspace) else {
        return (0xFF, 0);
    };
    workspace.fill(7);
    slot.unlock(&plan, key, workspace)
        .err()
        .map_or((0, 0), |refusal| (refusal.number(), refusal.carried()))
}

#[test]
fn two_cards_unlock(rt: HostRuntime) {
    let rows = [0x8D, 0xF6];
    let mut key = [9u8; 2];
    let mut workspace = [0u8; 4096];
    let mut slot: Slot<Gf256> = Slot::new();
    assert_eq!(rt;
        number(slot.insert(b"03 01 0000002A 02 03 01 02 3FA0\n")),
        0
    );
    assert_eq!(rt;
        unlocked(&slot, 3, &rows, &mut key, &mut workspace),
        (0x54, 1)
    );
    assert_eq!(rt; key, [9, 9]);
    assert_eq!(rt;
        number(slot.insert(b"03 01 0000002A 02 03 02 02 4CA0\n")),
        0
    );
    assert_eq!(rt; unlocked(&slot, 3, &rows, &mut key, &mut workspace), (0, 0));
    assert_eq!(rt; key, [0x12, 0x34]);
}

#[test]
fn plan_for_other_cards(rt: HostRuntime) {
    let mut key = [9u8; 2];
    let mut workspace = [0u8; 4096];
    let mut slot: Slot<Gf256> = Slot::new();
    assert_eq!(rt;
        number(slot.insert(b"03 01 0000002A 02 03 01 02 3FA0\n")),
        0
    );
    assert_eq!(rt;
        unlocked(&slot, 2, &[], &mut key, &mut workspace),
        (0x52, 0)
    );
    assert_eq!(rt; workspace, [0u8; 4096]);
}

#[test]
fn rows_of_another_field(rt: HostRuntime) {
    let mut key = [9u8; 2];
    let mut workspace = [0u8; 4096];
    let slot: Slot<Gf97> = Slot::new();
    assert_eq!(rt;
        unlocked(&slot, 3, &[0x8D, 0xF6], &mut key, &mut workspace),
        (0x12, 0)
    );
    assert_eq!(rt; workspace, [0u8; 4096]);
}
