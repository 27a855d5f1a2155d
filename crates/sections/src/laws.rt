ghost use Rattle.std.specs.Prelude.{◌≡◌};
ghost use Rattle.sections.specs.Places.{NumbersStand};

// The laws of the number at a place: what appends and overwrites keep, and what a filled word says.
// The answer is how many there are.
#[tactic(auto, using(crate::proofs::Places::numbers_stand))]
pub fn number_laws() -> usize
    ensures stand { NumbersStand }
    ensures count { result ≡ 4 }
{
    4
}
