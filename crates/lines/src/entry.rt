// Values that can be written, one case for each kind of line.
ghost use Rattle.lines.specs.Entries.{entered};
ghost use Rattle.lines.specs.RoundTrips.{Again};
ghost use Rattle.lines.specs.Writing.{written};
ghost use Rattle.std.specs.Prelude.{◌≡◌, IfOk, Some, string_bytes};

use crate::kind::Kind;
use crate::mark::{DealMark, MarkNumber as Wide};
use crate::write::put_line;
use std::alloc::{AllocError, Global};
use std::fmt;

// What is written for the line number of a refusal that no line is to blame for.
pub const NO_LINE: u16 = 0xffff;

// The numbers of a line to write.
// Stays: a field is named by its mark, the byte of the format, since lines know no fields.
#[derive(Clone, Copy, PartialEq, Eq, Debug)]
pub enum Entry<'a> {
    Plan {
        field: u8,
        t: u8,
        n: u8,
    },
    Row {
        numbers: &'a [u8],
    },
    Card {
        field: u8,
        mark: DealMark,
        t: u8,
        n: u8,
        card: u8,
        size: u8,
        numbers: &'a [u8],
    },
    Key {
        mark: DealMark,
        numbers: &'a [u8],
    },
    Dummy {
        numbers: &'a [u8],
    },
    // A refusal's number, what it carries, and the line at fault, if there is one.
    // Stays: the refusals are those of the crates above, so a line knows them by what it writes.
    Refusal {
        number: u8,
        carries: u16,
        line: Option<u16>,
    },
}

// The line with the byte that closes it.
impl fmt::Display for Entry<'_> {
    ghost output = { λ e. Some (written (entered e)) };

    fn fmt<W: fmt::Write>(&self, f: &mut fmt::Formatter<W>) -> fmt::Result {
        match *self {
            Entry::Plan { field, t, n } => {
                let values = [Wide::from(field), Wide::from(t), Wide::from(n)];
                put_line(f, Kind::Plan, &values, &[])
            }
            Entry::Row { numbers } => put_line(f, Kind::Row, &[], numbers),
            Entry::Card {
                field,
                mark,
                t,
                n,
                card,
                size,
                numbers,
            } => {
                let values = [
                    Wide::from(field),
                    mark.number,
                    Wide::from(t),
                    Wide::from(n),
                    Wide::from(card),
                    Wide::from(size),
                ];
                put_line(f, Kind::Card, &values, numbers)
            }
            Entry::Key { mark, numbers } => put_line(f, Kind::Key, &[mark.number], numbers),
            Entry::Dummy { numbers } => put_line(f, Kind::Dummy, &[], numbers),
            Entry::Refusal {
                number,
                carries,
                line,
            } => {
                let line = line.unwrap_or(NO_LINE);
                let values = [Wide::from(number), Wide::from(carries), Wide::from(line)];
                put_line(f, Kind::Refusal, &values, &[])
            }
        }
    }
}

impl Entry<'_> {
    // The line as text, with the byte that closes it.
    pub fn text(&self, heap: Global) -> Result<String, AllocError>
        ensures bytes { IfOk result (λ s. string_bytes s ≡ written (entered self.now)) }
        ensures again { Again (entered self.now) }
    {
        self.to_string(heap)
    }
}
