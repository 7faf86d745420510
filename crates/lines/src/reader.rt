// A reader over lent text, which steps from line to line.
ghost use Rattle.std.specs.Prelude.{◌≤◌, length};

use crate::fault::Fault;
use crate::line::Line;
use crate::part::tail_at;
use crate::read::{checked_line, head_of, line_text};
use crate::wanted::Wanted;

// The longest text that is read.
pub const LONGEST_TEXT: usize = 4096;

// A text, with the start of the next line and its number.
#[derive(Drop)]
pub struct Reader<'a> {
    text: &'a [u8],
    start: usize,
    number: usize,
    // The text is not too long.
    pub ghost short: { length text.now ≤ 4096 },
}

impl<'a> Reader<'a> {
    ghost use Rattle.std.specs.Prelude.{◌≡◌, ◌≤◌, ◌++◌, length, is_ok, IfOk, IfErr, if◌then◌else◌};
    ghost use Rattle.lines.specs.Faults.{fault_carries};
    ghost use Rattle.lines.specs.Lines.{Kept, content, head, kind_of, parts, parts_of, reading, told};
    ghost use Rattle.lines.specs.Readers.{ending, left, line_text, opened, opening, skipped, standing, stepped};
    ghost use Rattle.lines.specs.Writing.{written};

    // A reader at the start of a text that is not too long.
    pub fn new(text: &'a [u8]) -> Result<Reader<'a>, Fault>
        ensures { opened result ≡ opening text.now }
    {
        if text.len() > LONGEST_TEXT {
            return Err(Fault::Excess);
        }
        Ok(Reader {
            text,
            start: 0,
            number: 0,
        })
    }

    // The number of the next line, from 0.
    pub fn number(&self) -> usize
        ensures { result ≡ (standing self.now).number }
    {
        let number = self.number;
        number
    }

    // What is left of the text.
    pub fn rest(&self) -> &'a [u8]
        ensures { result.now ≡ left (standing self.now) }
    {
        tail_at(self.text, self.start).digits
    }

    // The next line, if it is as wanted; at a fault the reader stays where it was.
    pub fn read(&mut self, wanted: Wanted<'_>) -> Result<Line<'a>, Fault>
        ensures told { told result ≡ reading wanted.entry (left (standing self.old)) }
        ensures parts { IfOk result (λ l. parts l ≡ parts_of (kind_of wanted.entry) (head (left (standing self.old)))) }
        ensures after { standing self.new ≡ (if is_ok result then stepped (standing self.old) else standing self.old) }
        ensures kept { IfOk result (λ l. Kept wanted.entry (content l)) }
        ensures bound { IfErr result (λ f. fault_carries f ≤ length (left (standing self.old))) }
        ensures again { IfOk result (λ l. written (content l) ++ left (standing self.new) ≡ left (standing self.old)) }
    {
        let line = head_of(self.rest()).ok_or(Fault::Absent)?;
        let made = checked_line(line, wanted)?;
        self.start += line.len() + 1;
        self.number = self.number.saturating_add(1);
        Ok(made)
    }

    // The text of the next line with the byte that closes it, or all that is left where nothing closes it. The reader steps
    // past it, whatever it holds.
    pub fn skip(&mut self) -> &'a [u8]
        ensures value { result.now ≡ line_text (left (standing self.old)) }
        ensures after { standing self.new ≡ skipped (standing self.old) }
    {
        let line = line_text(self.rest());
        self.start += line.len();
        self.number = self.number.saturating_add(1);
        line
    }

    // That nothing is left of the text.
    pub fn end(&self) -> Result<(), Fault>
        ensures { result ≡ ending (left (standing self.now)) }
    {
        if !self.rest().is_empty() {
            return Err(Fault::Excess);
        }
        Ok(())
    }
}
