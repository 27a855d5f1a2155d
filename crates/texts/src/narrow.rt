ghost use Rattle.std.specs.Prelude.{◌≡◌, ℕ, ◌^◌, ◌<◌, Some, None, Option, Result, MatchResult, refl};
ghost use Rattle.std.specs.declared.num.TryFromIntError.{TryFromIntError};
ghost use Rattle.texts.specs.declared.bad_word.BadWord.{BadWord};
ghost use Rattle.texts.specs.declared.bad_word.BadWord.TheVariants.{NotANumber, OutOfRange};
ghost use Rattle.texts.specs.Words.{NoNumber, SaysNone};
ghost use Rattle.std.proofs.Common.{rules};

use std::num::TryFromIntError;

// A type of numbers that a text may say.
pub trait Narrow: Copy + TryFrom<u64, Error = TryFromIntError> {
    // The number that a value is.
    ghost natural: { Self → ℕ };

    // When a text that says this is refused, and with which word.
    ghost Refuses: { Option ℕ → BadWord → Type 0 };

    ghost refuses_none: { Refuses None NotANumber };

    // A number becomes the value that it is, or is refused.
    ghost exact: { (n : ℕ) → n < 2 ^ 64 → (r : Result Self TryFromIntError) → Self.try_from_gives n r → MatchResult r (λ x. natural x ≡ n) (λ _. Refuses (Some n) OutOfRange) };
}

// Three of the types are narrower than the numbers that a text can say, and two are not.
impl Narrow for u8 {
    ghost natural = { λ n. n };

    ghost Refuses = { NoNumber (2 ^ 8) };

    ghost refuses_none = { refl };

    ghost exact = { Prim.search rules };
}

impl Narrow for u16 {
    ghost natural = { λ n. n };

    ghost Refuses = { NoNumber (2 ^ 16) };

    ghost refuses_none = { refl };

    ghost exact = { Prim.search rules };
}

impl Narrow for u32 {
    ghost natural = { λ n. n };

    ghost Refuses = { NoNumber (2 ^ 32) };

    ghost refuses_none = { refl };

    ghost exact = { Prim.search rules };
}

impl Narrow for u64 {
    ghost natural = { λ n. n };

    ghost Refuses = { SaysNone };

    ghost refuses_none = { (refl, refl) };

    ghost exact = { Prim.search rules };
}

impl Narrow for usize {
    ghost natural = { λ n. n };

    ghost Refuses = { SaysNone };

    ghost refuses_none = { (refl, refl) };

    ghost exact = { Prim.search rules };
}
