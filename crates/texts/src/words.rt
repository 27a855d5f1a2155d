ghost use Rattle.std.specs.Prelude.{◌≡◌, Some, MatchResult};
ghost use Rattle.texts.specs.Texts.{number_of, signed_of, joined_of, bytes_named};
ghost use Rattle.texts.specs.Words.{SaysNone, NoBytes};

use super::bad_word::BadWord;
use super::digits;
use super::narrow::Narrow;
use std::alloc::Global;

// A number of at most 64 bits.
pub fn number<N: Narrow>(text: &str) -> Result<N, BadWord>
    ensures { MatchResult result (λ n. number_of text.now ≡ Some (N.natural n)) (N.Refuses (number_of text.now)) }
{
    let n = digits::number(text.as_bytes()).ok_or(BadWord::NotANumber)?;
    N::try_from(n).map_err(|_| BadWord::OutOfRange)
}

// A number of 128 bits, by its two halves.
pub fn joined(high: &str, low: &str) -> Result<u128, BadWord>
    ensures { MatchResult result (λ n. joined_of high.now low.now ≡ Some n) (SaysNone (joined_of high.now low.now)) }
{
    let high: u64 = number(high)?;
    let low: u64 = number(low)?;
    Ok(u128::from(high) * 0x1_0000_0000_0000_0000 + u128::from(low))
}

// A number of 64 bits with a sign.
pub fn whole(text: &str) -> Result<i64, BadWord>
    ensures { MatchResult result (λ n. signed_of text.now ≡ Some n) (SaysNone (signed_of text.now)) }
{
    digits::signed(text.as_bytes()).ok_or(BadWord::NotANumber)
}

// Bytes of two digits each, or a dash for none.
pub fn bytes(heap: Global, text: &str) -> Result<Vec<u8>, BadWord>
    ensures { MatchResult result (λ v. bytes_named text.now ≡ Some v.items) (NoBytes (bytes_named text.now)) }
{
    digits::hex_bytes(heap, text.as_bytes())
}
