// For whoever plans an examination: which plans with Cauchy rows can be used, for every t and n in both fields, and where one
// cannot, which cards stand against it.
#![tactic(auto)]

mod verdict;

use crate::verdict::{CARDS, judge};
use field::gf97::Gf97;
use field::gf256::Gf256;

fn main(rt: HostRuntime) -> anyhow::Result<()> {
    survey(&rt)
}

fn survey(rt: &HostRuntime) -> anyhow::Result<()> {
    println!(rt;
        "Plans with Cauchy rows: what t of n cards do, for every t and n within limits, in both fields."
    )?;
    println!(rt)?;
    println!(rt; "vetted  any t cards open the key, and any t - 1 cards tell nothing of it")?;
    println!(rt;
        "tells   any t cards open the key, but some t - 1 cards tell something of it: the first such group,"
    )?;
    println!(rt; "        as four hexadecimal digits, bit j for card j, and by its card numbers")?;
    println!(rt)?;
    println!(rt; "t of n  field 01, bytes under 11B       field 02, numbers modulo 97")?;
    for t in 2..=CARDS {
        plans(rt, t)?;
    }
    Ok(())
}

// A line for each n.
fn plans(rt: &HostRuntime, t: u8) -> anyhow::Result<()> {
    for n in t..=CARDS {
        let bytes = judge::<Gf256>(t, n).to_string(rt.alloc())?;
        let modulo = judge::<Gf97>(t, n);
        println!(rt; "{t} of {n}  {bytes:<32}{modulo}")?;
    }
    Ok(())
}
