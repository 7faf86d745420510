// The t cards that are to open a key.
ghost use Rattle.sharing.specs.Lent.{lent_plan};
ghost use Rattle.opening.specs.Quorums.{Fits};

use field::Field;
use sharing::plan::LentPlan;
use std::marker::PhantomData;

// A sound plan in the field F, t different cards of it, and b, how many numbers a piece of their key has.
#[derive(Drop)]
pub(crate) struct Quorum<'a, F: Field> {
    pub(crate) plan: LentPlan<'a>,
    // the cards' numbers
    pub(crate) numbers: &'a [u8],
    // the cards' data, one after the other in the order of the numbers
    pub(crate) data: &'a [u8],
    pub(crate) lanes: usize,
    pub(crate) field: PhantomData<F>,
    ghost fits: { Fits F.Field.ops (record { plan = lent_plan plan; numbers = numbers.now; «data» = «data».now; lanes = lanes }) },
}
