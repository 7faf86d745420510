// What a plan line says.
ghost use Rattle.std.specs.Prelude.{◌≤◌};

use field::known::Known;

// A plan's field, t and n, which are within limits.
#[derive(Clone, Copy)]
pub(crate) struct PlanLine {
    pub(crate) known: Known,
    pub(crate) t: u8,
    pub(crate) n: u8,
    ghost least: { 2 ≤ t },
    ghost ordered: { t ≤ n },
    ghost most: { n ≤ 8 },
}
