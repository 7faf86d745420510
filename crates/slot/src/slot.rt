// The slot of one field.
ghost use Rattle.std.specs.Prelude.{◌≡◌, ℕ, ◌<◌, true, false, slice_index_or};
ghost use Rattle.slot.specs.Holdings.{holding, within_limits, most, tally};
ghost use Rattle.slot.specs.Phases.{first_heading, in_phase};
ghost use Rattle.slot.specs.Unlocks.{Coded};

use crate::memory::State;
use field::Field;
use std::marker::PhantomData;

// A slot for cards over the field F. Every number held is a code of F.
#[derive(Drop)]
pub struct Slot<F: Field> {
    pub(crate) state: State,
    pub(crate) field: PhantomData<F>,
    ghost limits: { within_limits (first_heading state.phase) ≡ true },
    ghost phased: { in_phase state.phase (tally state.held) ≡ true },
    ghost below: { (k : ℕ) → slice_index_or state.held k false ≡ true → k < most (first_heading state.phase) },
    pub ghost coded: { Coded F.Field.ops (holding state) },
}
