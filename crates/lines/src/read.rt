// Reading the line at the head of a text: what is wrong with its text, and what its numbers are.
ghost use Rattle.std.specs.Prelude.{◌≡◌, ◌<◌, true, false, length, IfOk, MatchOption};
ghost use Rattle.lines.specs.Faults.{first};
ghost use Rattle.lines.specs.Lines.{content_of, formed, head, judged, kind_of, line_faults, lineless, of_kind, parts, parts_of, text_faults, told, unless};
ghost use Rattle.lines.specs.Readers.{line_text};

use crate::digits::{closing_place, digits_at_front, unsound_place};
use crate::fault::Fault;
use crate::kind::Kind;
use crate::limits::{LONGEST_KEY, is_among, is_dealt, is_planned, padded_size};
use crate::line::Line;
use crate::mark::MARK_BYTES;
use crate::part::{byte_at, part_at, tail_at};
use crate::shape::is_shaped;
use crate::wanted::Wanted;

// How many digits a deal's mark has.
const MARK_DIGITS: usize = 2 * MARK_BYTES as usize;

// The line at the head of a text, without the byte that closes it.
pub(crate) fn head_of(text: &[u8]) -> Option<&[u8]>
    ensures { MatchOption result (lineless text.now ≡ true) (λ l. (lineless text.now ≡ false) × (l.now ≡ head text.now) × (length l.now < length text.now)) }
{
    match closing_place(text) {
        None | Some(0) => None,
        Some(n) => Some(&text[..n]),
    }
}

// The line at the head of a text, with the byte that closes it; the whole text where nothing closes it.
pub(crate) fn line_text(text: &[u8]) -> &[u8]
    ensures { result.now ≡ line_text text.now }
{
    match closing_place(text) {
        Some(n) => &text[..=n],
        None => text,
    }
}

// Whether a line begins with the kind's number as its first field.
fn is_of_kind(line: &[u8], kind: Kind) -> bool
    ensures { result ≡ of_kind kind line.now }
{
    digits_at_front(line) == 2 && byte_at(line, 0) == kind.number()
}

// Whether the kind's fields and data follow.
fn is_formed(line: &[u8], kind: Kind) -> bool
    ensures { result ≡ formed kind line.now }
{
    is_shaped(tail_at(line, 2).digits, kind.widths(), kind.has_data())
}

// That a line's text has no fault, or the first that it has.
fn check_text(line: &[u8], kind: Kind) -> Result<(), Fault>
    ensures { result ≡ unless (first (text_faults kind line.now)) tt }
{
    if let Some(place) = unsound_place(line) {
        return Err(Fault::Byte { place });
    }
    if !is_of_kind(line, kind) {
        return Err(Fault::Unwanted);
    }
    if !is_formed(line, kind) {
        return Err(Fault::Shape);
    }
    Ok(())
}

// A plan over a field with one of the marks.
fn plan<'a>(line: &'a [u8], marks: &[u8]) -> Result<Line<'a>, Fault>
    ensures told { told result ≡ judged (Wanted.Plan marks.entry) (content_of Kind.Plan line.now) }
    ensures parts { IfOk result (λ l. parts l ≡ parts_of Kind.Plan line.now) }
{
    let field = byte_at(line, 3);
    let t = byte_at(line, 6);
    let n = byte_at(line, 9);
    if !is_among(field, marks) || !is_planned(t, n) {
        return Err(Fault::Limits);
    }
    Ok(Line::Plan { field, t, n })
}

// A row of a plan with threshold t.
fn row<'a>(line: &'a [u8], t: u8) -> Result<Line<'a>, Fault>
    ensures told { told result ≡ judged (Wanted.Row t) (content_of Kind.Row line.now) }
    ensures parts { IfOk result (λ l. parts l ≡ parts_of Kind.Row line.now) }
{
    let data = tail_at(line, 3);
    if data.count() != usize::from(t) {
        return Err(Fault::Length);
    }
    Ok(Line::Row { data })
}

// A card over the field with that mark.
fn card<'a>(line: &'a [u8], mark: u8) -> Result<Line<'a>, Fault>
    ensures told { told result ≡ judged (Wanted.Card mark) (content_of Kind.Card line.now) }
    ensures parts { IfOk result (λ l. parts l ≡ parts_of Kind.Card line.now) }
{
    let field = byte_at(line, 3);
    let deal = part_at(line, 6, MARK_DIGITS);
    let t = byte_at(line, 7 + MARK_DIGITS);
    let n = byte_at(line, 10 + MARK_DIGITS);
    let number = byte_at(line, 13 + MARK_DIGITS);
    let size = byte_at(line, 16 + MARK_DIGITS);
    let data = tail_at(line, 19 + MARK_DIGITS);
    if !is_dealt(mark, field, t, n, number, size) {
        return Err(Fault::Limits);
    }
    if data.count() != padded_size(t, size) {
        return Err(Fault::Length);
    }
    Ok(Line::Card {
        field,
        mark: deal,
        t,
        n,
        card: number,
        size,
        data,
    })
}

// A key of any size within the limits.
fn key<'a>(line: &'a [u8]) -> Result<Line<'a>, Fault>
    ensures told { told result ≡ judged Wanted.Key (content_of Kind.Key line.now) }
    ensures parts { IfOk result (λ l. parts l ≡ parts_of Kind.Key line.now) }
{
    let mark = part_at(line, 3, MARK_DIGITS);
    let data = tail_at(line, 4 + MARK_DIGITS);
    if data.count() > usize::from(LONGEST_KEY) {
        return Err(Fault::Limits);
    }
    Ok(Line::Key { mark, data })
}

// A dummy key for threshold t and a key of that size.
fn dummy<'a>(line: &'a [u8], t: u8, size: u8) -> Result<Line<'a>, Fault>
    ensures told { told result ≡ judged (Wanted.Dummy t size) (content_of Kind.Dummy line.now) }
    ensures parts { IfOk result (λ l. parts l ≡ parts_of Kind.Dummy line.now) }
{
    let data = tail_at(line, 3);
    if data.count() != padded_size(t, size) {
        return Err(Fault::Length);
    }
    Ok(Line::Dummy { data })
}

// The line of a text that was found sound, as numbers.
fn line_of<'a>(line: &'a [u8], wanted: Wanted<'_>) -> Result<Line<'a>, Fault>
    ensures told { told result ≡ judged wanted.entry (content_of (kind_of wanted.entry) line.now) }
    ensures parts { IfOk result (λ l. parts l ≡ parts_of (kind_of wanted.entry) line.now) }
{
    match wanted {
        Wanted::Plan { marks } => plan(line, marks),
        Wanted::Row { t } => row(line, t),
        Wanted::Card { mark } => card(line, mark),
        Wanted::Key => key(line),
        Wanted::Dummy { t, size } => dummy(line, t, size),
    }
}

// A line as numbers, or the first of its faults.
pub(crate) fn checked_line<'a>(line: &'a [u8], wanted: Wanted<'_>) -> Result<Line<'a>, Fault>
    ensures told { told result ≡ unless (first (line_faults wanted.entry line.now)) (content_of (kind_of wanted.entry) line.now) }
    ensures parts { IfOk result (λ l. parts l ≡ parts_of (kind_of wanted.entry) line.now) }
{
    check_text(line, wanted.kind())?;
    line_of(line, wanted)
}
