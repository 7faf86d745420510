// What a program refuses a text with.
ghost use Rattle.slot.specs.Refusals.{listing};
ghost use Rattle.std.specs.Prelude.{◌^◌, ◌<◌};

use slot::refusal::SlotRefusal;

// A refusal, and the line at fault where one is to blame. What it carries fits a refusal line.
#[derive(Clone, Copy, PartialEq, Eq, Debug)]
pub struct Notice {
    pub refusal: SlotRefusal,
    pub line: Option<u16>,
    ghost fits: { (listing refusal).1 < 2 ^ 16 },
}
