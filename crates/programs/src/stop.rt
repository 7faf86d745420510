// Why a program stops before its end.
ghost use Rattle.std.specs.Prelude.{◌≡◌, ◌≤◌};
ghost use Rattle.field.specs.Refusals.{listing};
ghost use Rattle.lines.specs.Faults.{fault_carries};
ghost use Rattle.programs.specs.Answers.{Answer, Refusing, at_line, no_line};
ghost use Rattle.programs.specs.Answers.Answer.{Refuses};
ghost use Rattle.programs.specs.Gathering.{Short, at_card};
ghost use Rattle.programs.specs.declared.stop.Stop.TheVariants.{NoMemory};
ghost use Rattle.slot.specs.Refusals.{listing as numbers};

pub use crate::notice::Notice;
use field::refusal::Refusal;
use lines::Fault;
use plan_check::plan::Refused as Unchecked;
use slot::refusal::SlotRefusal;
use std::alloc::{AllocError, AllocFailed as Unplaced};

// A refusal, or want of memory.
#[derive(Clone, Copy, PartialEq, Eq, Debug)]
pub enum Stop {
    Refused(Notice),
    NoMemory,
}

impl From<AllocError> for Stop {
    ghost from_gives = { λ _ s. s ≡ NoMemory };

    fn from(_e: AllocError) -> Stop {
        Stop::NoMemory
    }
}

impl<T: Drop> From<Unplaced<T>> for Stop {
    ghost from_gives = { λ _ s. s ≡ NoMemory };

    fn from(_e: Unplaced<T>) -> Stop {
        Stop::NoMemory
    }
}

// No line is to blame for what a plan, a deal or an opening is refused for.
impl From<Refusal> for Stop {
    ghost from_gives = { λ r s. Refusing s (Refuses (listing r).0 (listing r).1 no_line) };

    fn from(refusal: Refusal) -> Stop {
        Stop::Refused(Notice {
            refusal: SlotRefusal::Shared(refusal),
            line: None,
        })
    }
}

// The plan that is refused is let go.
impl<P: Drop> From<Unchecked<P>> for Stop {
    ghost from_gives = { λ r s. Refusing s (Refuses (listing r.refusal).0 (listing r.refusal).1 no_line) };

    fn from(refused: Unchecked<P>) -> Stop {
        refused.refusal.into()
    }
}

impl Stop {
    // A fault in the line with that number.
    pub(crate) fn at_line(fault: Fault, line: u16) -> Stop
        requires { fault_carries fault ≤ 4096 }
        ensures { Refusing result (at_line fault line) }
    {
        Stop::Refused(Notice {
            refusal: SlotRefusal::Line(fault),
            line: Some(line),
        })
    }

    // A text that is too long, or that goes on after the last line wanted.
    pub(crate) fn excess() -> Stop
        ensures { Refusing result (Refuses 0x46 0 no_line) }
    {
        Stop::Refused(Notice {
            refusal: SlotRefusal::Line(Fault::Excess),
            line: None,
        })
    }

    // What a slot refuses to open for.
    pub(crate) fn shut(refusal: SlotRefusal) -> Stop
        requires { Short refusal }
        ensures { Refusing result (Refuses (numbers refusal).0 (numbers refusal).1 no_line) }
    {
        Stop::Refused(Notice {
            refusal,
            line: None,
        })
    }

    // What a slot refuses a card for, which is in the line with that number. No line is to blame for text after it.
    pub(crate) fn at_card(refusal: SlotRefusal, line: u16) -> Stop
        requires { Short refusal }
        ensures { Refusing result (at_card refusal line) }
    {
        let line = match refusal {
            SlotRefusal::Line(Fault::Excess) => None,
            _ => Some(line),
        };
        Stop::Refused(Notice { refusal, line })
    }
}
