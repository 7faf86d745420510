// A plan as calls take it, and how many lanes a deal has.
ghost use Rattle.std.specs.Prelude.{◌≡◌, ◌≤◌};
ghost use Rattle.sharing.specs.Scheme.{lanes};

// A plan as it is lent to a call: t, n and the rows t to n − 1, one after the other.
#[derive(Clone, Copy)]
pub struct LentPlan<'a> {
    pub t: u8,
    pub n: u8,
    pub rows: &'a [u8],
}

// b, how many numbers a piece of a key of `len` numbers has.
pub fn lanes(t: u8, len: u8) -> usize
    requires { 1 ≤ t }
    ensures { result ≡ lanes t len }
{
    usize::from(len).div_ceil(usize::from(t))
}
