// How a group of cards is written.
ghost use Rattle.std.specs.Prelude.{◌≡◌, ℕ, ◌<◌, ◌≤◌, length, slice_index};
ghost use Rattle.sharing.specs.Groups.{bits};

// A group as a number, bit j for card j.
pub fn group_bits(cards: &[u8]) -> u16
    requires few { length cards.now ≤ 8 }
    requires below { (i : ℕ) → i < length cards.now → slice_index cards.now i < 8 }
    ensures { result ≡ bits cards.now }
{
    cards.iter().map(|card| 1u16 << *card).sum()
}
