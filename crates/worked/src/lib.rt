// Cases worked out by hand, all in one list.
#![tactic(auto)]

ghost use Rattle.std.specs.List.{AllByRecursion};
ghost use Rattle.worked.specs.Cases.{Holds, cases};
ghost use Rattle.std.specs.Prelude.{◌≡◌, length};

// How many cases were worked out by hand: each of them is proved to hold.
pub fn worked_cases() -> usize
    ensures number { result ≡ length cases }
    ensures hold { AllByRecursion Holds cases }
{
    22
}
