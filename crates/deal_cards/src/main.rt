// Deals cards: reads a plan, a key and its dummy keys from standard input, and writes all cards, or the first refusal.
#![tactic(auto)]

use programs::dealing::deal_cards;
use programs::run::run;

fn main(rt: HostRuntime) -> anyhow::Result<()> {
    run(&rt, deal_cards)
}
