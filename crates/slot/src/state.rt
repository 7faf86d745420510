// The memory of a slot, and what is written into it.
ghost use Rattle.std.specs.Prelude.{◌≡◌, ◌+◌, ◌*◌, ◌<◌, ◌≤◌, length, replicate};
ghost use Rattle.lines.specs.Digits.{spelled};
ghost use Rattle.slot.specs.Cards.{numbers};
ghost use Rattle.slot.specs.Holdings.{tally, width};
ghost use Rattle.slot.specs.States.{laid, put, taken, emptied};

use crate::card::Card;
use crate::memory::{MOST_CARDS, State, WIDTH};
use crate::phase::Event;
use lines::Part;
use plan_check::guard::clear;

// Lays the numbers that digits spell into the memory from a place on.
fn lay(memory: &mut [u8], at: usize, data: Part<'_>)
    requires { at + length (spelled «data».digits.now) ≤ length memory.old }
    ensures { memory.new ≡ laid memory.old at (spelled «data».entry.digits.now) }
{
    for (i, number) in data.numbers().enumerate() {
        memory[at + i] = number;
    }
}

// Writes zero into the 70 numbers from a place on.
fn wipe(memory: &mut [u8], at: usize)
    requires { at + 70 ≤ length memory.old }
    ensures { memory.new ≡ laid memory.old at (replicate width 0) }
{
    clear(&mut memory[at..at + WIDTH]);
}

impl State {
    // How many cards are held.
    pub(crate) fn count(&self) -> u8
        ensures { result ≡ tally self.now.held }
    {
        self.held.iter().filter(|held| **held).count() as u8
    }

    // Puts a card in.
    pub(crate) fn put(&mut self, card: Card<'_>)
        ensures { self.new ≡ put self.old card.entry.heading card.entry.number (numbers card.entry) }
    {
        let place = usize::from(card.number);
        lay(&mut self.memory, WIDTH * place, card.data);
        self.held[place] = true;
        let held = self.count();
        self.phase.step(Event::Insert(card.heading), held);
    }

    // Takes a card out.
    pub(crate) fn take_out(&mut self, number: u8)
        requires { number < 8 }
        ensures { self.new ≡ taken self.old number }
    {
        let place = usize::from(number);
        wipe(&mut self.memory, WIDTH * place);
        self.held[place] = false;
        let held = self.count();
        self.phase.step(Event::Pull, held);
    }

    // Takes every card out.
    pub(crate) fn empty(&mut self)
        ensures { self.new ≡ emptied }
    {
        clear(&mut self.memory);
        self.held = [false; MOST_CARDS];
        self.phase.step(Event::Clear, 0);
    }
}
