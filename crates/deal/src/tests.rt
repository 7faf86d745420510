// A card of a small plan, number by number.
use crate::casting::write_card;
use crate::store::Store;
use field::gf97::Gf97;
use sharing::plan::LentPlan;

// t 2, n 3, row 49 1, key 10 20, dummy key 30 96: the cards are 40 96, 19 14 and 39 30.
#[test]
fn three_cards(rt: HostRuntime) {
    let rows = [49, 1];
    let plan = LentPlan {
        t: 2,
        n: 3,
        rows: &rows,
    };
    let numbers = [10, 20, 30, 96];
    let store = Store {
        numbers: &numbers,
        t: 2,
        lanes: 1,
    };
    let mut card = [0; 2];
    write_card::<Gf97>(&plan, &store, 0, &mut card);
    assert!(rt; card[0] == 40 && card[1] == 96);
    write_card::<Gf97>(&plan, &store, 1, &mut card);
    assert!(rt; card[0] == 19 && card[1] == 14);
    write_card::<Gf97>(&plan, &store, 2, &mut card);
    assert!(rt; card[0] == 39 && card[1] == 30);
}
