// The dealing program, from text to text.
ghost use Rattle.std.specs.Prelude.{◌≡◌, ◌+◌, ◌-◌, ◌≤◌, IfOk, string_bytes};
ghost use Rattle.plan_check.specs.Plans.{vetted_plan};
ghost use Rattle.lines.specs.Readers.{left, standing};
ghost use Rattle.programs.specs.Answers.{Answer, Tells, granted, output};
ghost use Rattle.programs.specs.Answers.Answer.{Grants};
ghost use Rattle.programs.specs.Dealing.{Dealing, Dealt, Examined, OnlyDealing};
ghost use Rattle.sharing.specs.Scheme.{plan_of};

use crate::cards::write_cards;
pub use crate::output::Output;
use crate::output::say;
use crate::planning::{PlanText, read_plan_lines};
use crate::plans::vet_plan;
use crate::stop::Stop;
use crate::store::read_store;
use field::Field;
use field::gf97::Gf97;
use field::gf256::Gf256;
use field::known::Known;
use lines::Reader;
use plan_check::plan::{Checked, Vetted};
use std::alloc::{AllocError, Global};

// Reads the lines of a key, the first of which has this number, and deals its cards with a vetted plan.
fn deal_key<F: Field>(
    heap: Global,
    reader: &mut Reader<'_>,
    plan: &Vetted,
    line: u16,
) -> Result<String, Stop>
    requires limits { (2 ≤ (vetted_plan plan.now).t) × ((vetted_plan plan.now).t ≤ 8) }
    requires line { line ≤ 100 }
    ensures { Tells result (λ s. Dealt F.Field.ops (vetted_plan plan.now) line (left (standing reader.old)) (Grants (string_bytes s))) (λ a. Dealt F.Field.ops (vetted_plan plan.now) line (left (standing reader.old)) a) }
{
    let text = read_store(heap, reader, plan.threshold(), line)?;
    reader.end().map_err(|_| Stop::excess())?;
    write_cards::<F>(heap, plan, &text)
}

// Checks a plan that was read, and deals with it.
fn deal_plan<F: Field>(heap: Global, text: PlanText<'_>) -> Result<String, Stop>
    ensures { Tells result (λ s. Examined F.Field.ops (plan_of text.entry.plan.t text.entry.plan.n text.entry.rows.items) (1 + (text.entry.plan.n - text.entry.plan.t)) (left (standing text.entry.reader)) (Grants (string_bytes s))) (λ a. Examined F.Field.ops (plan_of text.entry.plan.t text.entry.plan.n text.entry.rows.items) (1 + (text.entry.plan.n - text.entry.plan.t)) (left (standing text.entry.reader)) a) }
{
    let PlanText {
        plan,
        rows,
        mut reader,
    } = text;
    let vetted = vet_plan::<F>(plan, &rows)?;
    deal_key::<F>(heap, &mut reader, &vetted, 1 + u16::from(plan.n - plan.t))
}

// The cards of the deal that a text describes, or why there are none.
// Stays: a closure cannot be generic over the field, and a trait for one would be longer than the arms.
fn deal_text(heap: Global, text: &[u8]) -> Result<String, Stop>
    ensures { Tells result (λ s. Dealing text.now (Grants (string_bytes s))) (λ a. Dealing text.now a) }
{
    let lines = read_plan_lines(heap, text)?;
    match lines.plan.known {
        Known::Bytes => deal_plan::<Gf256>(heap, lines),
        Known::Modulo97 => deal_plan::<Gf97>(heap, lines),
    }
}

// Deals the cards of the plan, key and dummy keys in a text: their lines, lowest first, or the line of the first refusal.
// A text has one such answer.
pub fn deal_cards(heap: Global, text: &[u8]) -> Result<Output, AllocError>
    ensures answer { IfOk result (λ o. (a : Answer) × Dealing text.now a × (string_bytes o.text ≡ output a) × (o.granted ≡ granted a)) }
    ensures only { IfOk result (λ o. OnlyDealing text.now (string_bytes o.text) o.granted) }
{
    say(heap, deal_text(heap, text))
}
