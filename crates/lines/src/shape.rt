// The shape of a line after its kind: fields of given widths, each behind one space, then data.
ghost use Rattle.lines.specs.Shapes.{shaped, spaced};
ghost use Rattle.std.specs.Prelude.{◌≡◌, true, []};

use crate::digits::digits_at_front;

// Whether the text begins with a space and so many digits.
fn is_spaced(text: &[u8], digits: usize) -> bool
    ensures { result ≡ spaced digits text.now }
{
    match text {
        [b' ', rest @ ..] => digits <= digits_at_front(rest),
        _ => false,
    }
}

// Whether the text is data: a space and an even number of digits, not none.
fn is_data(text: &[u8]) -> bool
    ensures { result ≡ shaped [] true text.now }
{
    let n = text.len();
    n > 1 && n % 2 == 1 && is_spaced(text, n - 1)
}

// Whether the text is a field of each width, then data if there is to be any, and nothing else.
#[tactic(auto, using(crate::proofs::Fields::spaced_room))]
pub(crate) fn is_shaped(text: &[u8], widths: &[u8], data: bool) -> bool
    ensures { result ≡ shaped widths.now «data» text.now }
{
    let mut rest = text;
    for width in widths {
        let digits = 2 * usize::from(*width);
        if !is_spaced(rest, digits) {
            return false;
        }
        rest = &rest[1 + digits..];
    }
    if data { is_data(rest) } else { rest.is_empty() }
}
