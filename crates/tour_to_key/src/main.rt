// One task from beginning to end, with notes, in each of the two fields: a three-of-five plan is drafted with Cauchy rows,
// written as lines and read back, admitted and vetted; a key is dealt onto five cards; and three of them open it again.
#![tactic(auto)]

mod cabinet;

use crate::cabinet::opened;
use field::gf97::Gf97;
use field::gf256::Gf256;
use touring::tour;

fn main(rt: HostRuntime) -> anyhow::Result<()> {
    tour(
        &rt,
        |plan, cards| opened::<Gf256>(&rt, plan, cards),
        |plan, cards| opened::<Gf97>(&rt, plan, cards),
    )
}
