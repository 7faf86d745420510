// The cabinet: the written cards go into its slot as the lines that were printed, and three of them open the key.
use field::Field;
use plan_check::plan::Vetted;
use slot::phase::Phase;
use slot::refusal::SlotRefusal;
use slot::slot::Slot;
use touring::{ROOM, Said};

// Puts cards 4, 1 and 3 in, with what goes wrong on the way; then opens the key and clears the slot.
pub fn opened<F: Field>(rt: &HostRuntime, plan: &Vetted, cards: &[String]) -> anyhow::Result<()> {
    println!(rt; "The cards go into the cabinet's slot, as the lines above. Card 4 comes first:")?;
    let mut slot = Slot::<F>::new();
    put_in(rt, &mut slot, line(cards, 4))?;
    put_in_stranger(rt, &mut slot, line(cards, 0))?;
    println!(rt; "Card 1:")?;
    put_in(rt, &mut slot, line(cards, 1))?;
    println!(rt; "Card 1 once more:")?;
    put_in(rt, &mut slot, line(cards, 1))?;
    println!(rt; "Two cards are held and three are needed. Unlocking is tried all the same:")?;
    unlocked(rt, &slot, plan)?;
    println!(rt; "Card 3:")?;
    put_in(rt, &mut slot, line(cards, 3))?;
    unlocked(rt, &slot, plan)?;
    slot.clear();
    print!(rt; "Cleared. ")?;
    stands(rt, &slot)
}

// The line of card j, or no text, which the slot refuses.
fn line(cards: &[String], j: usize) -> &str {
    cards.get(j).map_or("", |card| card.as_str())
}

// Puts a card in, and says whether the slot takes it.
fn put_in<F: Field>(rt: &HostRuntime, slot: &mut Slot<F>, card: &str) -> anyhow::Result<()> {
    match slot.insert(card.as_bytes()) {
        Ok(()) => {
            print!(rt; "Taken. ")?;
            stands(rt, slot)
        }
        Err(refusal) => told(rt, refusal),
    }
}

// Says what the slot refuses.
fn told(rt: &HostRuntime, refusal: SlotRefusal) -> anyhow::Result<()> {
    let said = Said {
        number: refusal.number(),
        carried: refusal.carried(),
    };
    println!(rt; "{said}")?;
    Ok(())
}

// Puts a card in that has another deal's mark in place of its own.
fn put_in_stranger<F: Field>(
    rt: &HostRuntime,
    slot: &mut Slot<F>,
    card: &str,
) -> anyhow::Result<()> {
    let stranger = card.replace(rt.alloc(), "0000002A", "0000002B")?;
    println!(rt; "A stranger's card, which differs from card 0 in its deal's mark alone:")?;
    print!(rt; "{stranger}")?;
    put_in(rt, slot, stranger.as_str())
}

// Says how far the slot has come.
fn stands<F: Field>(rt: &HostRuntime, slot: &Slot<F>) -> anyhow::Result<()> {
    match slot.phase() {
        Phase::Empty => println!(rt; "The slot is empty.")?,
        Phase::Gathering(_) => println!(rt; "The slot waits for more cards.")?,
        Phase::Ready(_) => println!(rt; "The slot is ready.")?,
    }
    Ok(())
}

// Asks the slot for the key, and says what comes.
fn unlocked<F: Field>(rt: &HostRuntime, slot: &Slot<F>, plan: &Vetted) -> anyhow::Result<()> {
    let mut key = [0u8; 4];
    let mut workspace = [0u8; ROOM];
    if let Err(refusal) = slot.unlock::<Vetted<'_>>(plan, &mut key, &mut workspace) {
        return told(rt, refusal);
    }
    let [a, b, c, d] = key;
    println!(rt; "Unlocked: the key is {a:02X} {b:02X} {c:02X} {d:02X}.")?;
    Ok(())
}
