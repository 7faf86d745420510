// Text lines of plans, rows, cards, keys and dummy keys: a reader over lent text, and values that can be written.
#![tactic(auto)]

mod digits;
mod entry;
mod fault;
mod hex;
mod kind;
mod limits;
mod line;
mod mark;
mod part;
mod read;
mod reader;
mod shape;
mod trips;
mod wanted;
mod write;

pub use entry::{Entry, NO_LINE};
pub use fault::Fault;
pub use kind::Kind;
pub use line::Line;
pub use mark::{DealMark, MARK_BYTES, MarkNumber};
pub use part::{Numbers, Part};
pub use reader::{LONGEST_TEXT, Reader};
pub use trips::{round_trips, worked_lines};
pub use wanted::Wanted;
