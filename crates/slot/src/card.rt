// A card as its line of text says it.
ghost use Rattle.std.specs.Prelude.{◌≡◌, ◌<◌, true, length, Some, IfOk};
ghost use Rattle.lines.specs.Digits.{spelled};
ghost use Rattle.lines.specs.Lines.{Kept, content, head, parts, parts_of, told};
ghost use Rattle.lines.specs.declared.kind.Kind.TheVariants.{Card as CardKind};
ghost use Rattle.lines.specs.declared.wanted.Wanted.TheVariants.{Card as WantedCard};
ghost use Rattle.slot.specs.Holdings.{card_length, within_limits};
ghost use Rattle.slot.specs.Inserts.{card_read};

use crate::phase::Heading;
use lines::{DealMark, Fault, Line, Part, Reader, Wanted};

// The number of a card, its heading, and its data as digits of the text, all within their limits.
#[derive(Clone, Copy)]
pub struct Card<'a> {
    pub(crate) number: u8,
    pub(crate) heading: Heading,
    pub(crate) data: Part<'a>,
    ghost limits: { within_limits (Some heading) ≡ true },
    ghost below: { number < heading.n },
    ghost long: { length (spelled «data».digits.now) ≡ card_length (Some heading) },
}

// Reads a text that is one card line over the field with that mark, and nothing else.
fn read_line<'a>(text: &'a [u8], mark: u8) -> Result<Line<'a>, Fault>
    ensures told { told result ≡ card_read mark text.now }
    ensures parts { IfOk result (λ l. parts l ≡ parts_of CardKind (head text.now)) }
    ensures kept { IfOk result (λ l. Kept (WantedCard mark) (content l)) }
{
    let mut reader = Reader::new(text)?;
    let line = reader.read(Wanted::a_card(mark))?;
    reader.end()?;
    Ok(line)
}

impl<'a> Card<'a> {
    ghost use Rattle.slot.specs.Cards.{card_told};

    // The card of such a text.
    pub(crate) fn read(text: &'a [u8], mark: u8) -> Result<Card<'a>, Fault>
        ensures { card_told mark result ≡ card_read mark text.now }
    {
        let line = read_line(text, mark)?;
        let Line::Card {
            mark: deal,
            t,
            n,
            card: number,
            size,
            data,
            ..
        } = line
        else {
            unreachable()
        };
        let heading = Heading {
            mark: DealMark::of(deal),
            t,
            n,
            size,
        };
        Ok(Card {
            number,
            heading,
            data,
        })
    }
}
