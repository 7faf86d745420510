// The limits that the numbers of a line keep.
ghost use Rattle.lines.specs.Lines.{among, dealt, padded, planned, sized};
ghost use Rattle.std.specs.Prelude.{◌≡◌};

// The largest number of cards, and the longest key.
const MOST_CARDS: u8 = 8;

pub(crate) const LONGEST_KEY: u8 = 64;

// Whether a mark is one of those known.
pub(crate) fn is_among(mark: u8, marks: &[u8]) -> bool
    ensures { result ≡ among mark marks.now }
{
    marks.contains(&mark)
}

// Whether t and n can be threshold and number of cards.
// Stays: the field crate has the same test, but what reads lines stands on no field.
pub(crate) fn is_planned(t: u8, n: u8) -> bool
    ensures { result ≡ planned t n }
{
    2 <= t && t <= n && n <= MOST_CARDS
}

// Whether a key can be that long.
pub(crate) fn is_sized(size: u8) -> bool
    ensures { result ≡ sized size }
{
    1 <= size && size <= LONGEST_KEY
}

// Whether the numbers of a card over the field with that mark keep their limits.
pub(crate) fn is_dealt(mark: u8, field: u8, t: u8, n: u8, card: u8, size: u8) -> bool
    ensures { result ≡ dealt mark field t n card size }
{
    field == mark && is_planned(t, n) && card < n && is_sized(size)
}

// The size of a key rounded up to a multiple of t.
pub(crate) fn padded_size(t: u8, size: u8) -> usize
    ensures { result ≡ padded t size }
{
    if t == 0 {
        return 0;
    }
    usize::from(size).next_multiple_of(usize::from(t))
}
