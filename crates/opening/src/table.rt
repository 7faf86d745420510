// What can be wrong with what Open is handed, in the order of its table.
ghost use Rattle.std.specs.Prelude.{◌≡◌, ◌+◌, ◌*◌, ◌/◌, ◌%◌, ◌<◌, ◌≤◌, ◌==◌, not, length, nat_lt, take};
ghost use Rattle.std.specs.List.{enumerate_from, find, list_any};
ghost use Rattle.field.specs.Refusals.{refused, foremost};
ghost use Rattle.sharing.specs.Lent.{lent_plan};
ghost use Rattle.opening.specs.Tables.{data_place, cards_table, data_table, inputs_table};

use field::Field;
use field::refusal::Refusal;
use plan_check::fault::{faultless, first_no_code};
use sharing::plan::{LentPlan, lanes};

// The first card number of n or more.
fn first_number_beyond(cards: &[u8], n: u8) -> Option<u8>
    ensures { result ≡ find (λ card. not (nat_lt card n)) cards.now }
{
    cards.iter().copied().find(|card| *card >= n)
}

// The first card number that stood before already, and its place.
fn first_number_twice(cards: &[u8]) -> Option<(usize, u8)>
    ensures { result ≡ find (λ e. list_any (λ card. card == e.1) (take e.0 cards.now)) (enumerate_from 0 cards.now) }
{
    cards
        .iter()
        .copied()
        .enumerate()
        .find(|(i, card)| cards[..*i].contains(card))
}

// Grants card numbers that nothing is wrong with, else names what is first: how many they are, one of n or more, one that
// stands twice.
fn fit_cards(plan: &LentPlan<'_>, cards: &[u8]) -> Result<(), Refusal>
    ensures { refused result ≡ foremost (cards_table plan.now.t plan.now.n cards.now) }
{
    if cards.len() != plan.t as usize {
        return Err(Refusal::CardCount);
    }
    if let Some(card) = first_number_beyond(cards, plan.n) {
        return Err(Refusal::NumberBeyond(card));
    }
    if let Some((_, card)) = first_number_twice(cards) {
        return Err(Refusal::NumberTwice(card));
    }
    Ok(())
}

// Where a byte of the data stands: 256 times its card's number, plus its index in that card's data.
fn place_in_data(cards: &[u8], card_length: usize, index: usize) -> u16
    requires some { 1 ≤ card_length }
    requires most { card_length ≤ 256 }
    requires within { index / card_length < length cards.now }
    ensures { result ≡ data_place cards.now card_length index }
{
    256 * cards[index / card_length] as u16 + (index % card_length) as u16
}

// Grants a key's length and cards' data that nothing is wrong with, else names what is first: the length, how many numbers
// there are, a byte that is no code.
fn fit_data<F: Field>(t: u8, key_length: u8, cards: &[u8], data: &[u8]) -> Result<(), Refusal>
    requires least { 1 ≤ t }
    requires most { t ≤ 8 }
    requires count { length cards.now ≡ t }
    ensures { refused result ≡ foremost (data_table F.Field.ops t key_length cards.now «data».now) }
{
    if key_length < 1 || key_length > 64 {
        return Err(Refusal::LengthBeyond);
    }
    let card_length = t as usize * lanes(t, key_length);
    if data.len() != t as usize * card_length {
        return Err(Refusal::DataLength);
    }
    if let Some(index) = first_no_code::<F>(data) {
        return Err(Refusal::DataCode(place_in_data(cards, card_length, index)));
    }
    Ok(())
}

// Grants what is handed in, but for the workspace, if nothing is wrong with it, else names what is first: of the plan, the
// card numbers, the data or the place.
pub(crate) fn fit_inputs<F: Field>(
    plan: &LentPlan<'_>,
    cards: &[u8],
    data: &[u8],
    key_length: u8,
    place: usize,
) -> Result<(), Refusal>
    ensures { refused result ≡ foremost (inputs_table F.Field.ops (lent_plan plan.now) cards.now «data».now key_length place) }
{
    faultless::<F>(plan)?;
    fit_cards(plan, cards)?;
    fit_data::<F>(plan.t, key_length, cards, data)?;
    if place != key_length as usize {
        return Err(Refusal::KeyPlace);
    }
    Ok(())
}
