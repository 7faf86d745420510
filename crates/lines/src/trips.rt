// That reading and writing undo each other.
ghost use Rattle.lines.specs.RoundTrips.{Rereads, Rewrites};
ghost use Rattle.lines.specs.Worked.{Worked};

// A line that is read and written again is the same line, and numbers that are written and read again are the same.
pub fn round_trips()
    ensures rewrites { Rewrites }
    ensures rereads { Rereads }
{}

// Lines worked out by hand.
pub fn worked_lines()
    ensures { Worked }
{}
