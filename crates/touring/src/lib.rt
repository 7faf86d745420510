// One task with notes, in each of the two fields: a three-of-five plan is drafted with Cauchy rows, written as lines and read
// back, admitted and vetted; then a key is dealt onto five cards. A tour goes on from there as it likes.
#![tactic(auto)]

mod dealing;
mod drafting;

ghost use Rattle.field.specs.Refusals.{listing};
ghost use Rattle.std.specs.Prelude.{◌≡◌, Ok, IfOk};

use crate::dealing::dealt;
use crate::drafting::drafted;
use anyhow::{Error, anyhow};
use field::Field;
use field::gf97::Gf97;
use field::gf256::Gf256;
use field::refusal::Refusal;
use field::rows::cauchy_rows;
use plan_check::plan::{Drafted, Vetted};
use std::fmt;

const THRESHOLD: u8 = 3;

const CARDS: u8 = 5;

// How many bytes a workspace has to have.
pub const ROOM: usize = 4096;

// Goes through the task in both fields. What is to come after it is handed the vetted plan and the cards' lines.
pub fn tour<B, M>(rt: &HostRuntime, after_bytes: B, after_modulo: M) -> anyhow::Result<()>
where
    B: FnOnce(&Vetted<'_>, &[String]) -> anyhow::Result<()>,
    M: FnOnce(&Vetted<'_>, &[String]) -> anyhow::Result<()>,
    requires after_bytes { B.IsAlwaysCallable after_bytes }
    requires after_modulo { M.IsAlwaysCallable after_modulo }
    ensures { IfOk result (λ _. ((plan : _) × (cards : _) × B.post after_bytes plan cards (Ok tt)) × ((plan : _) × (cards : _) × M.post after_modulo plan cards (Ok tt))) }
{
    println!(rt; "A plan for three of five examiners, in the field of bytes under 11B.")?;
    in_field::<Gf256, B>(rt, after_bytes)?;
    println!(rt)?;
    println!(rt; "The same in the field of numbers modulo 97.")?;
    in_field::<Gf97, M>(rt, after_modulo)
}

// The whole task in the field F.
fn in_field<F: Field, A>(rt: &HostRuntime, after: A) -> anyhow::Result<()>
where
    A: FnOnce(&Vetted<'_>, &[String]) -> anyhow::Result<()>,
    requires { A.IsAlwaysCallable after }
    ensures { IfOk result (λ _. (plan : _) × (cards : _) × A.post after plan cards (Ok tt)) }
{
    let mut rows = [0u8; 6];
    cauchy_rows::<F>(THRESHOLD, CARDS, &mut rows).map_err(refused)?;
    drafted::<F>(rt, &rows)?;
    let mut workspace = [0u8; ROOM];
    let admitted = Drafted::new(THRESHOLD, CARDS, &rows)
        .admit::<F>(&mut workspace)
        .map_err(|shut| refused(shut.refusal))?;
    println!(rt; "Admitted: any three of the five cards will open the key.")?;
    let vetted = admitted
        .vet::<F>(&mut workspace)
        .map_err(|telling| refused(telling.refusal))?;
    println!(rt; "Vetted: any two of them tell nothing of it.")?;
    let cards = dealt::<F>(rt, &vetted)?;
    after(&vetted, &cards)
}

// A refusal as a tour says it: its number, and what it carries.
#[derive(Clone, Copy)]
pub struct Said {
    pub number: u8,
    pub carried: usize,
}

impl fmt::Display for Said {
    fn fmt<W: fmt::Write>(&self, f: &mut fmt::Formatter<W>) -> fmt::Result {
        let number = self.number;
        let carried = self.carried;
        write!(f, "Refused with {number:02X}, carrying {carried:04X}.")
    }
}

impl From<Refusal> for Said {
    ghost from_gives = { λ r s. (s.number ≡ (listing r).0) × (s.carried ≡ (listing r).1) };

    fn from(refusal: Refusal) -> Said {
        Said {
            number: refusal.number(),
            carried: usize::from(refusal.carried()),
        }
    }
}

// What ends a tour that cannot go on.
fn refused(refusal: Refusal) -> Error {
    anyhow!("{}", Said::from(refusal))
}
