// Writing all cards of a deal.
ghost use Rattle.std.specs.Prelude.{◌≡◌, ◌+◌, ◌*◌, ◌<◌, ◌++◌, length, None, string_bytes, OnOk};
ghost use Rattle.plan_check.specs.Plans.{vetted_plan};
ghost use Rattle.deal.specs.Faults.{begin_rules};
ghost use Rattle.field.specs.Refusals.{foremost};
ghost use Rattle.lines.specs.Entries.{entered};
ghost use Rattle.lines.specs.Writing.{written};
ghost use Rattle.programs.specs.Answers.{Tells};
ghost use Rattle.programs.specs.Dealing.{Unbegun, cards_text};
ghost use Rattle.programs.specs.Progress.{Ready};
ghost use Rattle.sharing.specs.Scheme.{card, lanes};

use crate::stop::Stop;
use crate::store::KeyText;
use deal::begin::begin;
use deal::deal::Deal;
use field::Field;
use lines::Entry;
use plan_check::plan::{Checked, Vetted};
use sharing::plan::lanes;
use std::alloc::{AllocError, Global};

// Takes the blank of card `j`, whose turn it is, and writes the card on it.
fn put_card<F: Field>(deal: &mut Deal, plan: &Vetted, key: &KeyText, j: u8, place: &mut [u8])
    requires begun { foremost (begin_rules F.Field.ops (vetted_plan plan.now) key.now.size key.now.store.items) ≡ None }
    requires ready { Ready (vetted_plan plan.now) key.now.size j deal.old.state }
    requires below { j < (vetted_plan plan.now).n }
    requires room { length place.old ≡ (vetted_plan plan.now).t * lanes (vetted_plan plan.now).t key.now.size }
    ensures data { place.new ≡ card F.Field.ops (vetted_plan plan.now) (lanes (vetted_plan plan.now).t key.now.size) key.now.store.items j }
    ensures ready { Ready (vetted_plan plan.now) key.now.size (j + 1) deal.new.state }
{
    let blank = deal.take(j).unwrap();
    blank.write::<F>(deal, plan, &key.store, place).unwrap()
}

// Puts a line behind the text.
fn put_line(heap: Global, entry: Entry<'_>, text: &mut String) -> Result<(), AllocError>
    ensures { OnOk result (string_bytes text.new ≡ string_bytes text.old ++ written (entered entry.entry)) }
{
    let line = entry.text(heap)?;
    text.push_str(line.as_str())
}

// Begins a deal of a key from its store, and writes all its cards as lines, lowest first.
pub(crate) fn write_cards<F: Field>(
    heap: Global,
    plan: &Vetted,
    key: &KeyText,
) -> Result<String, Stop>
    ensures { Tells result (λ s. (foremost (begin_rules F.Field.ops (vetted_plan plan.now) key.now.size key.now.store.items) ≡ None) × (string_bytes s ≡ cards_text F.Field.ops (vetted_plan plan.now) key.now.mark.number key.now.size key.now.store.items)) (λ a. Unbegun F.Field.ops (vetted_plan plan.now) key.now.size key.now.store.items a) }
{
    let mut deal = begin::<F>(plan, key.mark, usize::from(key.size), &key.store)?;
    let t = plan.threshold();
    let n = plan.cards();
    let mut numbers = vec![in heap; 0u8; usize::from(t) * lanes(t, key.size)]?;
    let place = &mut numbers[..];
    let mut text = String::new(heap);
    for j in 0..n {
        put_card::<F>(&mut deal, plan, key, j, place);
        let card = Entry::Card {
            field: F::mark(),
            mark: key.mark,
            t,
            n,
            card: j,
            size: key.size,
            numbers: place,
        };
        put_line(heap, card, &mut text)?;
    }
    Ok(text)
}
