// A deal that was begun, and what holds of it from call to call.
ghost use Rattle.std.specs.Prelude.{◌≡◌, ℕ, ◌+◌, ◌<◌, ◌≤◌, true, length};
ghost use Rattle.field.specs.Rows.{within};
ghost use Rattle.deal.specs.Calls.{is_out, standing, held, tally};

use crate::state::State;

// A deal. Its memory is small and fixed; it holds no number of the key.
#[derive(Drop)]
pub struct Deal {
    pub(crate) state: State,
    // t and n are a plan's, and the key's length is 1 to 64
    ghost limits: { within state.t state.n ≡ true },
    ghost some: { 1 ≤ state.len },
    ghost size: { state.len ≤ 64 },
    ghost long: { length state.cards ≡ 8 },
    // a card that is out is one of the deal's
    ghost below: { (j : ℕ) → is_out (standing state j) ≡ true → j < state.n },
    // every blank granted is out, written or spoiled
    ghost balance: { state.granted ≡ tally (held state).out state.n + tally (held state).written state.n + state.spoiled },
    ghost most: { state.granted ≤ 200 },
}
