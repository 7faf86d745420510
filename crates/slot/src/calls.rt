// The calls of a slot that move it: a card is put in, a card is taken out, all cards are taken out.
ghost use Rattle.std.specs.Prelude.{◌≡◌, is_some, if◌then◌else◌};
ghost use Rattle.slot.specs.Holdings.{count, holding};
ghost use Rattle.slot.specs.Inserts.{held_at, insert_after, insert_memory, insert_refusal, nothing, pull_table, pulled};
ghost use Rattle.slot.specs.Phases.{phase_of};
ghost use Rattle.slot.specs.Refusals.{foremost, refused};
ghost use Rattle.slot.specs.States.{emptied, taken};

use crate::card::Card;
use crate::memory::{MEMORY, MOST_CARDS, State};
use crate::phase::{Heading, Phase};
use crate::refusal::SlotRefusal;
use crate::slot::Slot;
use field::Field;
use std::marker::PhantomData;

impl<F: Field> Slot<F> {
    // An empty slot.
    pub fn new() -> Slot<F>
        ensures holds { holding result.state ≡ nothing }
        ensures memory { result.state ≡ emptied }
    {
        let state = State {
            phase: Phase::Empty,
            held: [false; MOST_CARDS],
            memory: [0; MEMORY],
        };
        Slot {
            state,
            field: PhantomData,
        }
    }

    // The phase, with the heading of the first card.
    pub fn phase(&self) -> Phase
        ensures { result ≡ phase_of (holding self.now.state).first (count (holding self.now.state).cards) }
    {
        self.state.phase
    }

    // What stands on every card held; nothing while no card is held.
    pub fn heading(&self) -> Option<Heading>
        ensures { result ≡ (holding self.now.state).first }
    {
        self.state.phase.heading()
    }

    // Puts in the card that a text is: one card line over this field, and nothing else.
    pub fn insert(&mut self, text: &[u8]) -> Result<(), SlotRefusal>
        ensures refusal { refused result ≡ insert_refusal F.Field.ops (holding self.old.state) text.now }
        ensures holds { holding self.new.state ≡ insert_after F.Field.ops (holding self.old.state) text.now }
        ensures memory { self.new.state ≡ insert_memory F.Field.ops self.old.state text.now }
    {
        let card = Card::read(text, F::mark())?;
        self.state.check_card::<F>(card)?;
        self.state.put(card);
        Ok(())
    }

    // Takes a card out by its number, and zeroes the memory that held it.
    pub fn pull(&mut self, number: u8) -> Result<(), SlotRefusal>
        ensures refusal { refused result ≡ foremost (pull_table (holding self.old.state) number) }
        ensures holds { holding self.new.state ≡ (if is_some (held_at (holding self.old.state) number) then pulled (holding self.old.state) number else holding self.old.state) }
        ensures memory { self.new.state ≡ (if is_some (held_at (holding self.old.state) number) then taken self.old.state number else self.old.state) }
    {
        if !self.state.holds(number) {
            return Err(SlotRefusal::NotHeld(number));
        }
        self.state.take_out(number);
        Ok(())
    }

    // Takes all cards out, and zeroes the whole memory.
    pub fn clear(&mut self)
        ensures holds { holding self.new.state ≡ nothing }
        ensures memory { self.new.state ≡ emptied }
    {
        self.state.empty();
    }
}
