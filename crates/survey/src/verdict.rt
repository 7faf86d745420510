// What the two checks of a plan come to for Cauchy rows.
ghost use Rattle.survey.specs.Verdicts.{Judged, OnlyVerdict};

use field::Field;
use field::rows::{cauchy_rows, within_limits};
use plan_check::plan::Drafted;
use std::fmt;

// The most cards that a plan has.
pub(crate) const CARDS: u8 = 8;

// Room for Cauchy rows: at most 8 rows of at most 8 numbers.
const NUMBERS: usize = 64;

// How many bytes are lent to a check.
const ROOM: usize = 4096;

// What is found of the plan of the Cauchy rows for t of n. A group is a number, bit j for card j.
#[derive(Clone, Copy, PartialEq, Eq, Debug)]
pub(crate) enum Verdict {
    // t or n beyond 2 ≤ t ≤ n ≤ 8
    OutOfLimits,
    // the first group of t cards that does not open the key
    NotAdmitted(u16),
    // admitted; the first group of t − 1 cards that tells something of the key
    Tells(u16),
    // any t cards open the key, and t − 1 of them tell nothing of it
    Vetted,
}

// A group with its bits and its card numbers.
impl fmt::Display for Verdict {
    fn fmt<W: fmt::Write>(&self, f: &mut fmt::Formatter<W>) -> fmt::Result {
        match *self {
            Verdict::OutOfLimits => write!(f, "out of limits"),
            Verdict::NotAdmitted(group) => {
                write!(f, "not admitted {group:04X}, cards")?;
                put_cards(f, group)
            }
            Verdict::Tells(group) => {
                write!(f, "tells {group:04X}, cards")?;
                put_cards(f, group)
            }
            Verdict::Vetted => write!(f, "vetted"),
        }
    }
}

// Writes the numbers of a group's cards, a space before each.
fn put_cards<W: fmt::Write>(f: &mut fmt::Formatter<W>, group: u16) -> fmt::Result {
    for card in 0..CARDS {
        if (group >> card) & 1 == 1 {
            write!(f, " {card}")?;
        }
    }
    Ok(())
}

// Drafts the plan of the Cauchy rows, and has it admitted and vetted.
pub(crate) fn judge<F: Field>(t: u8, n: u8) -> Verdict
    ensures judged { Judged F.Field.ops t n result }
    ensures only { OnlyVerdict F.Field.ops t n result }
{
    if !within_limits(t, n) {
        return Verdict::OutOfLimits;
    }
    // Stays: a verdict is always found, and on the heap the rows could want memory
    let mut place = [0u8; NUMBERS];
    let rows = &mut place[..(n - t) as usize * t as usize];
    // Stays: they are never refused, since the limits hold and the place is as long as they are; there is no error to hand on
    if let Err(_) = cauchy_rows::<F>(t, n, rows) {
        return Verdict::OutOfLimits;
    }
    let mut workspace = [0u8; ROOM];
    // Stays: each check's refusal is another verdict, and no error, so that `?` would want a type for what it returns
    let admitted = match Drafted::new(t, n, rows).admit::<F>(&mut workspace) {
        Ok(admitted) => admitted,
        Err(shut) => return Verdict::NotAdmitted(shut.refusal.carried()),
    };
    match admitted.vet::<F>(&mut workspace) {
        Ok(_) => Verdict::Vetted,
        Err(telling) => Verdict::Tells(telling.refusal.carried()),
    }
}
