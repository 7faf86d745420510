// Deals whose cards were worked out by hand.
ghost use Rattle.std.specs.Prelude.{◌≡◌, length};
ghost use Rattle.sharing.specs.Worked.{Hold, worked_deals};

// How many deals were worked out by hand: each of them is proved to have the cards that were found.
pub fn worked_cards() -> usize
    ensures number { result ≡ length worked_deals }
    ensures hold { Hold worked_deals }
{
    3
}
