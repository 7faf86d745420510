// Putting the cards of a text into a slot, one after the other.
ghost use Rattle.std.specs.Prelude.{◌≡◌, ◌≤◌, [], length, Some, None};
ghost use Rattle.lines.specs.Readers.{left, standing};
ghost use Rattle.programs.specs.Answers.{Tells};
ghost use Rattle.programs.specs.Gathering.{Taken, Ungathered, at_card};
ghost use Rattle.slot.specs.Holdings.{holding};
ghost use Rattle.slot.specs.Inserts.{insert_after, insert_refusal, nothing};
ghost use Rattle.slot.specs.declared.refusal.SlotRefusal.{SlotRefusal as SlotRefused};

use crate::stop::Stop;
use field::Field;
use lines::Reader;
use slot::slot::Slot;

// Puts the card that a text is into the slot; the card is in the line with that number.
fn put_in<F: Field>(slot: &mut Slot<F>, text: &[u8], line: u16) -> Result<(), Stop>
    requires { length text.now ≤ 4096 }
    ensures { Tells result (λ _. (insert_refusal F.Field.ops (holding slot.old.state) text.now ≡ None) × (holding slot.new.state ≡ insert_after F.Field.ops (holding slot.old.state) text.now)) (λ a. (e : SlotRefused) × (insert_refusal F.Field.ops (holding slot.old.state) text.now ≡ Some e) × (a ≡ at_card e line)) }
{
    slot.insert(text)
        .map_err(|refusal| Stop::at_card(refusal, line))
}

// Puts the t cards that are left of a text into an empty slot. The first of them is in the line with that number.
pub(crate) fn gather<F: Field>(
    slot: &mut Slot<F>,
    reader: &mut Reader<'_>,
    t: u8,
    line: u16,
) -> Result<(), Stop>
    requires empty { holding slot.old.state ≡ nothing }
    requires some { 1 ≤ t }
    requires line { line ≤ 100 }
    ensures { Tells result (λ _. Taken F.Field.ops t (left (standing reader.old)) (holding slot.new.state) []) (λ a. Ungathered F.Field.ops t line (left (standing reader.old)) a) }
{
    for k in 0..t - 1 {
        put_in::<F>(slot, reader.skip(), line + u16::from(k))?;
    }
    put_in::<F>(slot, reader.rest(), line + u16::from(t - 1))
}
