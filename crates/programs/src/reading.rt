// Reading the lines of a text, one after the other.
ghost use Rattle.std.specs.Prelude.{◌≡◌, ℕ, ◌+◌, ◌≤◌, List, ◌++◌, Ok, Err, IfOk, OnOk};
ghost use Rattle.lines.specs.Digits.{spelled};
ghost use Rattle.lines.specs.Lines.{Kept, content, head, kind_of, parts, parts_of, reading, told};
ghost use Rattle.lines.specs.Readers.{left, standing};
ghost use Rattle.lines.specs.Writing.{written};
ghost use Rattle.lines.specs.declared.fault.Fault.{Fault as AnyFault};
ghost use Rattle.lines.specs.declared.kind.Kind.TheVariants.{Plan};
ghost use Rattle.lines.specs.declared.wanted.Wanted.TheVariants.{Key};
ghost use Rattle.programs.specs.Answers.{Tells, at_line};
ghost use Rattle.programs.specs.Texts.{Block, Broken, KeyHead, NoPlan, Plain, PlanHead, WantsPlan, width};

use crate::plan_line::PlanLine;
use crate::stop::Stop;
use field::known::Known;
use lines::{DealMark, Line, Part, Reader, Wanted};
use std::alloc::AllocError;

// The marks of the fields that there are.
// Stays: a constant cannot ask a field for its mark, and the contract of `known_plan` says that these are they.
const KNOWN_MARKS: [u8; 2] = [1, 2];

// What a key line says; the key is a part of the text.
#[derive(Clone, Copy)]
pub(crate) struct KeyLine<'a> {
    pub(crate) mark: DealMark,
    pub(crate) key: Part<'a>,
}

// A plan line of a field that there is.
fn known_plan() -> Wanted<'static>
    ensures wants { WantsPlan result }
    ensures kind { kind_of result ≡ Plan }
{
    Wanted::Plan {
        marks: &KNOWN_MARKS,
    }
}

// Reads the next line, which has this number.
fn read_line<'a>(reader: &mut Reader<'a>, wanted: Wanted<'_>, line: u16) -> Result<Line<'a>, Stop>
    ensures told { Tells result (λ l. told (Ok l) ≡ reading wanted.entry (left (standing reader.old))) (λ a. (f : AnyFault) × (reading wanted.entry (left (standing reader.old)) ≡ Err f) × (a ≡ at_line f line)) }
    ensures parts { IfOk result (λ l. parts l ≡ parts_of (kind_of wanted.entry) (head (left (standing reader.old)))) }
    ensures kept { IfOk result (λ l. Kept wanted.entry (content l)) }
    ensures again { IfOk result (λ l. written (content l) ++ left (standing reader.new) ≡ left (standing reader.old)) }
{
    reader
        .read(wanted)
        .map_err(|fault| Stop::at_line(fault, line))
}

// Reads a plan line of a field that there is, the first of a text.
pub(crate) fn read_plan(reader: &mut Reader<'_>) -> Result<PlanLine, Stop>
    ensures { Tells result (λ p. PlanHead p.known p.t p.n (left (standing reader.old)) (left (standing reader.new))) (λ a. (f : AnyFault) × NoPlan (left (standing reader.old)) f × (a ≡ at_line f 0)) }
{
    let Line::Plan { field, t, n } = read_line(reader, known_plan(), 0)? else {
        unreachable!()
    };
    let Ok(known) = Known::try_from(field) else {
        unreachable!()
    };
    Ok(PlanLine { known, t, n })
}

// Reads a key line, which has this number.
pub(crate) fn read_key<'a>(reader: &mut Reader<'a>, line: u16) -> Result<KeyLine<'a>, Stop>
    ensures { Tells result (λ k. KeyHead k.mark.number (spelled k.key.digits.now) (left (standing reader.old)) (left (standing reader.new))) (λ a. (f : AnyFault) × (reading Key (left (standing reader.old)) ≡ Err f) × (a ≡ at_line f line)) }
{
    let Line::Key { mark, data } = read_line(reader, Wanted::a_key(), line)? else {
        unreachable!()
    };
    Ok(KeyLine {
        mark: DealMark::of(mark),
        key: data,
    })
}

// Puts the numbers of a part behind those that are there.
pub(crate) fn push_part(part: Part<'_>, numbers: &mut Vec<u8>) -> Result<(), AllocError>
    ensures { OnOk result (numbers.new.items ≡ numbers.old.items ++ spelled part.entry.digits.now) }
{
    numbers.extend(part.numbers())
}

// Puts the data of a line behind the numbers that are there.
fn push_data(line: Line<'_>, numbers: &mut Vec<u8>) -> Result<(), AllocError>
    ensures { OnOk result (numbers.new.items ≡ numbers.old.items ++ (content line.entry).numbers) }
{
    match line {
        Line::Plan { .. } => Ok(()),
        Line::Row { data }
        | Line::Card { data, .. }
        | Line::Key { data, .. }
        | Line::Dummy { data } => push_part(data, numbers),
    }
}

// Reads so many lines of rows or dummy keys, the first of them with this number, and puts their data behind the numbers
// that are there.
pub(crate) fn read_block(
    reader: &mut Reader<'_>,
    wanted: Wanted<'_>,
    first: u16,
    count: u8,
    numbers: &mut Vec<u8>,
) -> Result<(), Stop>
    requires plain { Plain wanted }
    requires line { first ≤ 4096 }
    ensures { Tells result (λ _. (xs : List ℕ) × (numbers.new.items ≡ numbers.old.items ++ xs) × Block (kind_of wanted.entry) (width wanted.entry) count (left (standing reader.old)) xs (left (standing reader.new))) (λ a. (k : ℕ) × (f : AnyFault) × Broken wanted.entry count k (left (standing reader.old)) f × (a ≡ at_line f (first + k))) }
{
    for i in 0..count {
        let line = read_line(reader, wanted, first + u16::from(i))?;
        push_data(line, numbers)?;
    }
    Ok(())
}
