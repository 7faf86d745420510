// A plan that is known to be sound in a field.
ghost use Rattle.sharing.specs.Lent.{lent_plan};
ghost use Rattle.sharing.specs.Scheme.{Sound};

use crate::plan::LentPlan;
use field::Field;
use std::marker::PhantomData;

// A plan that is sound in the field F: its t and n are within limits, and its rows are codes, as many as they have to be.
#[derive(Drop)]
pub struct SoundPlan<'a, F: Field> {
    pub plan: LentPlan<'a>,
    pub field: PhantomData<F>,
    pub ghost sound: { Sound F.Field.ops (lent_plan plan) },
}
