ghost use Rattle.std.specs.Prelude.{◌≡◌, length};
ghost use Rattle.numbers.specs.Cases.{Right, cases};

// The number of worked cases, each of which comes out right.
#[tactic(auto, unfolding(crate::specs::Leb::leb))]
pub fn worked_cases() -> usize
    ensures right { Right cases }
    ensures count { result ≡ length cases }
{
    10
}
