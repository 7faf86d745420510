// The three states of a plan. Each is moved from call to call, and borrows the plan's rows, so that nobody writes them
// while the plan stands.
ghost use Rattle.std.specs.Prelude.{◌≡◌, length};
ghost use Rattle.field.specs.Refusals.{refused};
ghost use Rattle.sharing.specs.Lent.{lent_plan};
ghost use Rattle.sharing.specs.Scheme.{Plan, plan_of};
ghost use Rattle.plan_check.specs.declared.property.Property.TheVariants.{Opening, Hiding};
ghost use Rattle.plan_check.specs.Checks.{Allowed, Grants, OnlyAnswer, cleared};
ghost use Rattle.plan_check.specs.Plans.{drafted_plan, admitted_plan, vetted_plan, answered, kept};

use crate::examine::examine;
use crate::property::Property;
use field::Field;
use field::refusal::Refusal;
use sharing::plan::LentPlan;

// A plan as it was put down: nothing is known of it.
#[derive(Drop)]
pub struct Drafted<'a> {
    plan: LentPlan<'a>,
}

// A plan that every group of t cards opens, in the field that it was admitted in.
#[derive(Drop)]
pub struct Admitted<'a> {
    draft: Drafted<'a>,
}

// An admitted plan that every group of t − 1 cards hides, in the field that it was vetted in.
#[derive(Drop)]
pub struct Vetted<'a> {
    admitted: Admitted<'a>,
}

// A refusal, and the plan that was refused.
#[derive(Drop)]
pub struct Refused<P> {
    pub plan: P,
    pub refusal: Refusal,
}

impl<'a> Drafted<'a> {
    // A new plan; whatever it holds, it is taken.
    pub fn new(t: u8, n: u8, rows: &'a [u8]) -> Self
        ensures { drafted_plan result ≡ plan_of t n rows.now }
    {
        let plan = LentPlan { t, n, rows };
        Drafted { plan }
    }

    // Grants the plan if it has the property, else names what stands against it.
    fn examined<F: Field>(&self, property: Property, workspace: &mut [u8]) -> Result<(), Refusal>
        ensures answer { Allowed property F.Field.ops (drafted_plan self.now) (length workspace.old) (refused result) }
        ensures workspace { workspace.new ≡ cleared workspace.old }
    {
        examine::<F>(property, &self.plan, workspace)
    }

    // Admits the plan if every group of t cards opens the key in the field; else names what stands against it. A workspace
    // of 4,096 bytes or more is all zero in the end, a shorter one stays as it was.
    pub fn admit<F: Field>(self, workspace: &mut [u8]) -> Result<Admitted<'a>, Refused<Drafted<'a>>>
        ensures answer { Allowed Opening F.Field.ops (drafted_plan self.entry) (length workspace.old) (answered result) }
        ensures grants { Grants Opening F.Field.ops (drafted_plan self.entry) (length workspace.old) (answered result) }
        ensures only { OnlyAnswer Opening F.Field.ops (drafted_plan self.entry) (length workspace.old) (answered result) }
        ensures plan { kept admitted_plan drafted_plan result ≡ drafted_plan self.entry }
        ensures workspace { workspace.new ≡ cleared workspace.old }
    {
        // Stays: `map` and `map_err` would each move the plan into a closure, and it can be moved into one only
        match self.examined::<F>(Property::Opening, workspace) {
            Ok(()) => Ok(Admitted { draft: self }),
            Err(refusal) => Err(Refused {
                plan: self,
                refusal,
            }),
        }
    }
}

impl<'a> Admitted<'a> {
    // Vets the plan if every group of t − 1 cards hides the key in the field; else names what stands against it. A
    // workspace of 4,096 bytes or more is all zero in the end, a shorter one stays as it was.
    pub fn vet<F: Field>(self, workspace: &mut [u8]) -> Result<Vetted<'a>, Refused<Admitted<'a>>>
        ensures answer { Allowed Hiding F.Field.ops (admitted_plan self.entry) (length workspace.old) (answered result) }
        ensures grants { Grants Hiding F.Field.ops (admitted_plan self.entry) (length workspace.old) (answered result) }
        ensures only { OnlyAnswer Hiding F.Field.ops (admitted_plan self.entry) (length workspace.old) (answered result) }
        ensures plan { kept vetted_plan admitted_plan result ≡ admitted_plan self.entry }
        ensures workspace { workspace.new ≡ cleared workspace.old }
    {
        // Stays: `map` and `map_err` would each move the plan into a closure, and it can be moved into one only
        match self.draft.examined::<F>(Property::Hiding, workspace) {
            Ok(()) => Ok(Vetted { admitted: self }),
            Err(refusal) => Err(Refused {
                plan: self,
                refusal,
            }),
        }
    }
}

// A plan that has been admitted, and perhaps vetted too.
pub trait Checked {
    ghost plan: { Self → Plan };

    // t, how many cards open the key.
    fn threshold(&self) -> u8
        ensures { result ≡ (plan self.now).t };

    // n, how many cards there are.
    fn cards(&self) -> u8
        ensures { result ≡ (plan self.now).n };

    // The rows t to n − 1, one after the other.
    fn rows(&self) -> &[u8]
        ensures { result.now ≡ (plan self.now).rows };

    // The plan, to be lent on.
    fn lent(&self) -> LentPlan<'_>
        ensures { lent_plan result ≡ plan self.now }
    {
        LentPlan {
            t: self.threshold(),
            n: self.cards(),
            rows: self.rows(),
        }
    }
}

impl<'a> Checked for Admitted<'a> {
    ghost plan = { admitted_plan };

    fn threshold(&self) -> u8 {
        self.draft.plan.t
    }

    fn cards(&self) -> u8 {
        self.draft.plan.n
    }

    fn rows(&self) -> &[u8] {
        self.draft.plan.rows
    }
}

impl<'a> Checked for Vetted<'a> {
    ghost plan = { vetted_plan };

    fn threshold(&self) -> u8 {
        self.admitted.threshold()
    }

    fn cards(&self) -> u8 {
        self.admitted.cards()
    }

    fn rows(&self) -> &[u8] {
        self.admitted.rows()
    }
}
