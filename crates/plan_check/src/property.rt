// The two properties that a check asks of groups of cards.
ghost use Rattle.std.specs.Prelude.{◌≡◌, ◌≤◌};
ghost use Rattle.field.specs.Refusals.{listing};
ghost use Rattle.plan_check.specs.Checks.{group_size, failure};

use field::refusal::Refusal;

// Stays: the specifications list these two cases; closures or a trait would give each case three items, and no less to read
#[derive(Clone, Copy, PartialEq, Eq, Debug)]
pub enum Property {
    // t cards open the key
    Opening,
    // t − 1 cards hide the key
    Hiding,
}

impl Property {
    // How many cards the groups have that are asked for the property.
    pub(crate) fn group_size(self, t: u8) -> u8
        requires { 1 ≤ t }
        ensures { result ≡ group_size self t }
    {
        match self {
            Property::Opening => t,
            Property::Hiding => t - 1,
        }
    }

    // The refusal that names a group without the property.
    pub(crate) fn failure(self, group: u16) -> Refusal
        ensures { listing result ≡ (failure self, group) }
    {
        match self {
            Property::Opening => Refusal::GroupShut(group),
            Property::Hiding => Refusal::GroupTells(group),
        }
    }
}
