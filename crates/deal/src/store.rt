// A store of a deal: the padded key, then the dummy keys.
ghost use Rattle.std.specs.Prelude.{◌≡◌, ℕ, ◌+◌, ◌*◌, ◌<◌, ◌≤◌, length, slice_index, IfOk};
ghost use Rattle.field.specs.Codes.{sum};
ghost use Rattle.field.specs.Refusals.{refused, foremost};
ghost use Rattle.sharing.specs.Scheme.{lanes, stored, word};
ghost use Rattle.deal.specs.Faults.{store_rules, stray_padding};

use crate::state::MOST_CARDS;
use field::Field;
use field::refusal::Refusal;
use plan_check::fault::{first_no_code, first_not_zero};
use sharing::plan::lanes;

// A store: t blocks of t pieces, and a number for each lane in a piece.
#[derive(Clone, Copy)]
pub(crate) struct Store<'a> {
    pub(crate) numbers: &'a [u8],
    pub(crate) t: usize,
    pub(crate) lanes: usize,
    ghost sized: { length numbers.now ≡ t * (t * lanes) },
    ghost small: { t ≤ 8 },
}

// Stays: tried: with `usize::from` in place of `as` each proof of a place takes one step more.
impl<'a> Store<'a> {
    // The store of t and the key's length. Refused by its first fault: its length, then a byte that is no code.
    #[tactic(auto, using(field::specs::Inverse::first_passes, crate::proofs::Places::store_small))]
    pub(crate) fn fitting<F: Field>(t: u8, len: u8, numbers: &'a [u8]) -> Result<Self, Refusal>
        requires { (2 ≤ t) × (t ≤ 8) × (len ≤ 64) }
        ensures refusal { refused result ≡ foremost (store_rules F.Field.ops t len numbers.now) }
        ensures store { IfOk result (λ s. (s.numbers.now ≡ numbers.now) × (s.t ≡ t) × (s.lanes ≡ lanes t len)) }
    {
        let lanes = lanes(t, len);
        let t = t as usize;
        if numbers.len() != t * (t * lanes) {
            return Err(Refusal::StoreLength);
        }
        if let Some(index) = first_no_code::<F>(numbers) {
            return Err(Refusal::StoreCode(index as u16));
        }
        Ok(Store { numbers, t, lanes })
    }

    // The index of the first number of the padding of a key of `len` numbers that is not zero.
    pub(crate) fn first_stray(&self, len: usize) -> Option<usize>
        requires { (0 < self.now.t) × (self.now.lanes ≡ lanes self.now.t len) }
        ensures { result ≡ stray_padding self.now.t len self.now.numbers.now }
    {
        first_not_zero(&self.numbers[..self.t * self.lanes], len)
    }

    // Number `e` of piece `p` of block `i`.
    #[tactic(auto, using(crate::proofs::Places::place))]
    fn number(&self, i: usize, p: usize, e: usize) -> u8
        requires { (i < self.now.t) × (p < self.now.t) × (e < self.now.lanes) }
        ensures { result ≡ stored self.now.t self.now.lanes self.now.numbers.now i p e }
    {
        self.numbers[(i * self.t + p) * self.lanes + e]
    }

    // Number `p` of the first word of lane `e`: the key's number plus those of all dummy keys.
    #[tactic(auto, using(field::proofs::Sums::sum_none, field::proofs::Sums::sum_more))]
    fn first<F: Field>(&self, e: usize, p: usize) -> u8
        requires { (p < self.now.t) × (e < self.now.lanes) }
        ensures { result ≡ sum F.Field.ops self.now.t (λ i. stored self.now.t self.now.lanes self.now.numbers.now i p e) }
    {
        let mut total = 0;
        for i in 0..self.t {
            total = F::sum(total, self.number(i, p, e));
        }
        total
    }

    // Word `i` of lane `e`, of t numbers.
    // Stays: a deal has no heap, so a word lies in an array of the most numbers that it has.
    pub(crate) fn word<F: Field>(&self, i: usize, e: usize) -> [u8; MOST_CARDS]
        requires { (i < self.now.t) × (e < self.now.lanes) }
        ensures { (p : ℕ) → p < self.now.t → slice_index result p ≡ word F.Field.ops self.now.t self.now.lanes self.now.numbers.now i e p }
    {
        let mut word = [0; MOST_CARDS];
        for (p, number) in word[..self.t].iter_mut().enumerate() {
            *number = if i == 0 {
                self.first::<F>(e, p)
            } else {
                self.number(i, p, e)
            };
        }
        word
    }
}
