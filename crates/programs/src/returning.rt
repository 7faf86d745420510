// The opening program, from text to text.
ghost use Rattle.std.specs.Prelude.{◌≡◌, ◌+◌, ◌-◌, true, is_some, IfOk, string_bytes};
ghost use Rattle.plan_check.specs.Plans.{admitted_plan};
ghost use Rattle.lines.specs.Readers.{left, standing};
ghost use Rattle.programs.specs.Answers.{Answer, Tells, granted, output};
ghost use Rattle.programs.specs.Answers.Answer.{Grants};
ghost use Rattle.programs.specs.Joint.{GivenBack};
ghost use Rattle.programs.specs.Opening.{OnlyOpening, Opening, Tried, Unlocking};
ghost use Rattle.sharing.specs.Scheme.{plan_of};
ghost use Rattle.slot.specs.Holdings.{holding};

use crate::gather::gather;
use crate::output::{Output, say};
use crate::planning::{PlanText, read_plan_lines};
use crate::plans::{ROOM, admit_plan};
use crate::stop::Stop;
use field::Field;
use field::gf97::Gf97;
use field::gf256::Gf256;
use field::known::Known;
use lines::Entry;
use plan_check::plan::Admitted;
use slot::slot::Slot;
use std::alloc::{AllocError, Global};

// Opens the key with the cards in a slot, and writes its line.
fn open_slot<F: Field>(heap: Global, slot: &Slot<F>, plan: &Admitted) -> Result<String, Stop>
    requires { is_some (holding slot.now.state).first ≡ true }
    ensures { Tells result (λ s. Unlocking F.Field.ops (admitted_plan plan.now) (holding slot.now.state) (Grants (string_bytes s))) (λ a. Unlocking F.Field.ops (admitted_plan plan.now) (holding slot.now.state) a) }
{
    let heading = slot.heading().unwrap();
    let mut place = vec![in heap; 0u8; usize::from(heading.size)]?;
    let mut workspace = [0u8; ROOM];
    let key = &mut place[..];
    slot.unlock::<Admitted<'_>>(plan, key, &mut workspace)
        .map_err(Stop::shut)?;
    let line = Entry::Key {
        mark: heading.mark,
        numbers: key,
    };
    Ok(line.text(heap)?)
}

// Checks a plan that was read, gathers the cards that are left of the text, and opens the key.
fn open_plan<F: Field>(heap: Global, text: PlanText<'_>) -> Result<String, Stop>
    ensures { Tells result (λ s. Tried F.Field.ops (plan_of text.entry.plan.t text.entry.plan.n text.entry.rows.items) (1 + (text.entry.plan.n - text.entry.plan.t)) (left (standing text.entry.reader)) (Grants (string_bytes s))) (λ a. Tried F.Field.ops (plan_of text.entry.plan.t text.entry.plan.n text.entry.rows.items) (1 + (text.entry.plan.n - text.entry.plan.t)) (left (standing text.entry.reader)) a) }
{
    let PlanText {
        plan,
        rows,
        mut reader,
    } = text;
    let mut workspace = [0u8; ROOM];
    let admitted = admit_plan::<F>(plan, &rows, &mut workspace)?;
    let mut slot = Slot::<F>::new();
    gather::<F>(
        &mut slot,
        &mut reader,
        plan.t,
        1 + u16::from(plan.n - plan.t),
    )?;
    open_slot::<F>(heap, &slot, &admitted)
}

// The key that the cards in a text open, or why there is none.
// Stays: a closure cannot be generic over the field, and a trait for one would be longer than the arms.
fn open_text(heap: Global, text: &[u8]) -> Result<String, Stop>
    ensures { Tells result (λ s. Opening text.now (Grants (string_bytes s))) (λ a. Opening text.now a) }
{
    let lines = read_plan_lines(heap, text)?;
    match lines.plan.known {
        Known::Bytes => open_plan::<Gf256>(heap, lines),
        Known::Modulo97 => open_plan::<Gf97>(heap, lines),
    }
}

// Opens the key with the cards in a text, which follow the lines of their plan: the key's line, or the line of the first
// refusal.
pub fn open_cards(heap: Global, text: &[u8]) -> Result<Output, AllocError>
    ensures answer { IfOk result (λ o. (a : Answer) × Opening text.now a × (string_bytes o.text ≡ output a) × (o.granted ≡ granted a)) }
    ensures only { IfOk result (λ o. OnlyOpening text.now (string_bytes o.text) o.granted) }
    ensures returns { IfOk result (λ o. GivenBack text.now (string_bytes o.text) o.granted) }
{
    say(heap, open_text(heap, text))
}
