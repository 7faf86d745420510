// What comes of t cards: the key, the group that does not open, or padding that is not zero.
ghost use Rattle.std.specs.Prelude.{◌≡◌, ◌≤◌, ◌⊎◌, length, take, is_ok, if◌then◌else◌};
ghost use Rattle.field.specs.Refusals.{refused, foremost};
ghost use Rattle.sharing.specs.Lent.{lent_plan};
ghost use Rattle.sharing.specs.Scheme.{lanes as pieces};
ghost use Rattle.opening.specs.Answers.{padding, Shut, Opened};
ghost use Rattle.opening.specs.Tables.{room};

use crate::quorum::Quorum;
use field::Field;
use field::refusal::Refusal;
use plan_check::fault::first_not_zero;
use plan_check::guard::clear;
use sharing::groups::group_bits;

// Copies the key out of the padded key, unless its padding is not zero.
#[tactic(auto, using(field::specs::Inverse::first_passes))]
fn hand_over(padded: &[u8], key: &mut [u8]) -> Result<(), Refusal>
    requires longer { length key.old ≤ length padded.now }
    requires most { length padded.now ≤ 256 }
    ensures refusal { refused result ≡ foremost (padding (length key.old) padded.now) }
    ensures place { key.new ≡ (if is_ok result then take (length key.old) padded.now else key.old) }
{
    let size = key.len();
    if let Some(index) = first_not_zero(padded, size) {
        return Err(Refusal::KeyPadding(index as u16));
    }
    key.copy_from_slice(&padded[..size]);
    Ok(())
}

impl<F: Field> Quorum<'_, F> {
    // Opens the cards in the workspace: the key goes to its place, unless the cards' group does not open or the padding is
    // not zero.
    pub(crate) fn settle(&self, key: &mut [u8], workspace: &mut [u8]) -> Result<(), Refusal>
        requires pieces { self.now.lanes ≡ pieces self.now.plan.t (length key.old) }
        requires most { length key.old ≤ 64 }
        requires enough { room ≤ length workspace.old }
        ensures { Shut F.Field.ops (lent_plan self.now.plan) self.now.numbers.now key.old key.new result ⊎ Opened F.Field.ops (lent_plan self.now.plan) self.now.numbers.now self.now.«data».now (length key.old) key.old key.new result }
    {
        let t = self.plan.t as usize;
        let (sums, rest) = workspace.split_at_mut(t * self.lanes);
        let (matrix, _) = rest.split_at_mut(t * (t + self.lanes));
        clear(sums);
        self.solve_rows(matrix, sums)
            .map_err(|_| Refusal::GroupShut(group_bits(self.numbers)))?;
        hand_over(sums, key)
    }
}
