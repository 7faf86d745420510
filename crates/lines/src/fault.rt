// What can be wrong with a text.
ghost use Rattle.lines.specs.Faults.{fault_carries, fault_number};
ghost use Rattle.std.specs.Prelude.{◌≡◌};

// A fault of a line, or of the whole text.
#[derive(Clone, Copy, PartialEq, Eq, Debug)]
pub enum Fault {
    // No line is there: nothing is left, nothing stands before the closing byte, or that byte is missing.
    Absent,
    // A byte that is neither digit nor space, with its place in the line from 0.
    Byte { place: usize },
    // The line is not of the kind that is wanted.
    Unwanted,
    // Fields are too many, too few or of another width, or data has an odd number of digits or none.
    Shape,
    // A number is beyond its limits, or a field mark is not known here.
    Limits,
    // Data is too long or too short.
    Length,
    // The text is too long, or goes on after the last line wanted.
    Excess,
}

impl Fault {
    // The number of the fault.
    pub fn number(self) -> u8
        ensures { result ≡ fault_number self }
    {
        match self {
            Fault::Absent => 0x40,
            Fault::Byte { .. } => 0x41,
            Fault::Unwanted => 0x42,
            Fault::Shape => 0x43,
            Fault::Limits => 0x44,
            Fault::Length => 0x45,
            Fault::Excess => 0x46,
        }
    }

    // What the fault carries: the place of the byte that is at fault, else 0.
    pub fn carries(self) -> usize
        ensures { result ≡ fault_carries self }
    {
        match self {
            Fault::Byte { place } => place,
            _ => 0,
        }
    }
}
