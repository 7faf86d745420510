// Opens a key: reads a plan and t cards from standard input, and writes the key, or the first refusal.
#![tactic(auto)]

use programs::returning::open_cards;
use programs::run::run;

fn main(rt: HostRuntime) -> anyhow::Result<()> {
    run(&rt, open_cards)
}
