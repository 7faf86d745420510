// The cards of a store: each number of a card is cast from a word of a lane.
ghost use Rattle.std.specs.Prelude.{◌≡◌, ◌*◌, ◌≤◌, length};
ghost use Rattle.sharing.specs.Lent.{lent_plan};
ghost use Rattle.sharing.specs.Scheme.{card};

use crate::store::Store;
use field::Field;
use linear::casting::cast_number;
use sharing::plan::LentPlan;

// Puts the data of card `j` of a store into the place: row by row, lane by lane, the number that the card has of the row.
pub(crate) fn write_card<F: Field>(plan: &LentPlan<'_>, store: &Store<'_>, j: u8, place: &mut [u8])
    requires limits { (plan.now.t ≤ plan.now.n) × (plan.now.n ≤ 8) }
    requires store { (store.now.t ≡ plan.now.t) × (length place.old ≡ store.now.t * store.now.lanes) }
    ensures { place.new ≡ card F.Field.ops (lent_plan plan.now) store.now.lanes store.now.numbers.now j }
{
    for (x, number) in place.iter_mut().enumerate() {
        let i = x / store.lanes;
        let word = store.word::<F>(i, x % store.lanes);
        let c = (j as usize + i) % plan.n as usize;
        *number = cast_number::<F>(plan.rows, &word[..store.t], c);
    }
}
