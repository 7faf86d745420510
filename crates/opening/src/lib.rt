// Opening: from t cards back to the key.
#![tactic(auto)]

mod key;
mod quorum;
mod system;
mod table;
mod words;

ghost use Rattle.std.specs.Prelude.{◌≡◌, length};
ghost use Rattle.sharing.specs.Lent.{lent_plan};
ghost use Rattle.plan_check.specs.Checks.{cleared};
ghost use Rattle.opening.specs.Answers.{Answered, OnlyAnswer, GivesBack};

use field::Field;
use field::refusal::Refusal;
use plan_check::guard::Guard;
use plan_check::plan::Checked;
use quorum::Quorum;
use sharing::plan::{LentPlan, lanes};
use std::marker::PhantomData;
use table::fit_inputs;

// How many bytes a workspace has to have.
const ROOM: usize = 4096;

// Opens t cards of the plan.
// Stays: cards, data and length are the public call's own parameters; a type for them would be packed here and unpacked below.
fn open_cards<F: Field>(
    plan: &LentPlan<'_>,
    cards: &[u8],
    data: &[u8],
    key_length: u8,
    key: &mut [u8],
    workspace: &mut [u8],
) -> Result<(), Refusal>
    ensures answer { Answered F.Field.ops (lent_plan plan.now) cards.now «data».now key_length key.old key.new (length workspace.old) result }
    ensures zeros { workspace.new ≡ cleared workspace.old }
{
    let fit = fit_inputs::<F>(plan, cards, data, key_length, key.len());
    if workspace.len() < ROOM {
        return fit.and(Err(Refusal::OpeningRoom));
    }
    let guard = Guard { bytes: workspace };
    fit?;
    let quorum = Quorum::<F> {
        plan: *plan,
        numbers: cards,
        data,
        lanes: lanes(plan.t, key_length),
        field: PhantomData,
    };
    quorum.settle(key, guard.bytes)
}

// Opens t cards of an admitted or vetted plan, given by their numbers, in any order, and their data, one after the other in
// the same order: the key of `key_length` numbers goes to the place `key`. A refusal leaves the place as it stood. A
// workspace of 4,096 bytes or more is all zero at the end, whatever came; a shorter one is as it was.
pub fn open<'a, F: Field, P: Checked>(
    plan: &'a P,
    cards: &'a [u8],
    data: &'a [u8],
    key_length: u8,
    key: &mut [u8],
    workspace: &mut [u8],
) -> Result<(), Refusal>
    ensures answer { Answered F.Field.ops (P.Checked.plan plan.now) cards.now «data».now key_length key.old key.new (length workspace.old) result }
    ensures zeros { workspace.new ≡ cleared workspace.old }
    ensures only { OnlyAnswer F.Field.ops (P.Checked.plan plan.now) cards.now «data».now key_length key.old key.new (length workspace.old) result }
    ensures deals { GivesBack F.Field.ops (P.Checked.plan plan.now) cards.now «data».now key_length key.old key.new (length workspace.old) result }
{
    open_cards::<F>(&plan.lent(), cards, data, key_length, key, workspace)
}

#[cfg(test)]
mod tests {
    use super::*;
    use field::gf256::Gf256;

    // A plan of the tests' own.
    #[derive(Drop)]
    struct Given<'a> {
        t: u8,
        n: u8,
        rows: &'a [u8],
    }

    impl<'a> Checked for Given<'a> {
        ghost plan = { λ v. record { t = v.t; n = v.n; rows = v.rows.now } };

        fn threshold(&self) -> u8 {
            self.t
        }

        fn cards(&self) -> u8 {
            self.n
        }

        fn rows(&self) -> &[u8] {
            self.rows
        }
    }

    #[test]
    fn two_of_three(rt: HostRuntime) {
        let rows = [0x8D, 0xF6];
        let plan = Given {
            t: 2,
            n: 3,
            rows: &rows,
        };
        let mut key = [0u8; 2];
        let mut workspace = [7u8; 4096];
        let answer = open::<Gf256, Given>(
            &plan,
            &[1, 2],
            &[0x3F, 0xA0, 0x4C, 0xA0],
            2,
            &mut key,
            &mut workspace,
        );
        assert_eq!(rt; answer, Ok(()));
        assert_eq!(rt; key, [0x12, 0x34]);
    }

    #[test]
    fn loose_padding(rt: HostRuntime) {
        let plan = Given {
            t: 2,
            n: 2,
            rows: &[],
        };
        let mut key = [9u8; 3];
        let mut workspace = [7u8; 4096];
        let answer = open::<Gf256, Given>(
            &plan,
            &[0, 1],
            &[1, 2, 0, 0, 3, 7, 0, 0],
            3,
            &mut key,
            &mut workspace,
        );
        assert_eq!(rt; answer, Err(Refusal::KeyPadding(3)));
        assert_eq!(rt; key, [9, 9, 9]);
    }
}
