// The deal of a key onto five cards.
ghost use Rattle.std.specs.Prelude.{◌≡◌, IfOk, vec_len};

use crate::{CARDS, Said, THRESHOLD, refused};
use deal::begin::begin;
use deal::deal::Deal;
use field::Field;
use lines::{DealMark, Entry};
use plan_check::plan::Vetted;

const MARK: DealMark = DealMark { number: 42 };

// The key's length.
const LENGTH: u8 = 4;

// The key 01 02 03 04 with two zeros behind it, and two dummy keys. Dummy keys should be drawn at random; these are not.
const STORE: [u8; 18] = [
    1, 2, 3, 4, 0, 0, 11, 12, 13, 14, 15, 16, 21, 22, 23, 24, 25, 26,
];

// Deals the key: one blank is spoiled on the way, then all cards are taken and written. Answers the cards' lines.
pub(crate) fn dealt<F: Field>(rt: &HostRuntime, plan: &Vetted) -> anyhow::Result<Vec<String>>
    ensures { IfOk result (λ cards. vec_len cards ≡ 5) }
{
    println!(rt;
        "The key 01 02 03 04 is dealt. It is padded to 01 02 03 04 00 00, two numbers a piece."
    )?;
    let mut deal = begin::<F>(plan, MARK, usize::from(LENGTH), &STORE).map_err(refused)?;
    spoiled(rt, &mut deal)?;
    let mut cards = Vec::new(rt.alloc());
    for j in 0..CARDS {
        cards.push(card::<F>(rt, &mut deal, plan, j)?)?;
    }
    let (out, written, spoiled) = deal.count();
    println!(rt; "Out {out}, written {written}, spoiled {spoiled}.")?;
    Ok(cards)
}

// Takes card 0, tries to take it again, and brings the blank back. No blank is held while the notes are printed, since it
// would be lost where that fails.
fn spoiled(rt: &HostRuntime, deal: &mut Deal) -> anyhow::Result<()> {
    let blank = deal.take(0).map_err(refused)?;
    let again = deal.take(0).and_then(|second| second.spoil(deal));
    let _ = blank.spoil(deal);
    println!(rt; "Card 0 is out. It is asked for once more:")?;
    if let Err(refusal) = again {
        println!(rt; "{}", Said::from(refusal))?;
    }
    println!(rt; "Its blank is brought back unwritten; the card may be taken again.")?;
    Ok(())
}

// Takes card j, writes it, prints its line, and answers the line.
fn card<F: Field>(
    rt: &HostRuntime,
    deal: &mut Deal,
    plan: &Vetted,
    j: u8,
) -> anyhow::Result<String> {
    let blank = deal.take(j).map_err(refused)?;
    let mut place = [0u8; 6];
    blank
        .write::<F>(deal, plan, &STORE, &mut place)
        .map_err(refused)?;
    let line = Entry::Card {
        field: F::mark(),
        mark: MARK,
        t: THRESHOLD,
        n: CARDS,
        card: j,
        size: LENGTH,
        numbers: &place,
    };
    let text = line.text(rt.alloc())?;
    print!(rt; "{text}")?;
    Ok(text)
}
