ghost use Rattle.std.specs.Prelude.{◌≡◌, Some, MatchResult};
ghost use Rattle.texts.specs.Texts.{digit_of, one_more, value_in, some_digits_of, number_of, minus, plus, signed_of, byte_of, bytes_from, bytes_named};
ghost use Rattle.texts.specs.Words.{NoBytes};

use super::bad_word::BadWord;
use std::alloc::Global;

// The value of a digit; those above nine are lower-case letters.
fn digit(b: u8) -> Option<u8>
    ensures { result ≡ digit_of b }
{
    match b {
        b'0'..=b'9' => Some(b - b'0'),
        b'a'..=b'f' => Some(b - b'a' + 10),
        _ => None,
    }
}

// A number with one more digit, in a base.
fn push_digit(n: u64, base: u64, b: u8) -> Option<u64>
    ensures { result ≡ one_more base n b }
{
    let d = u64::from(digit(b)?);
    if d >= base {
        return None;
    }
    n.checked_mul(base)?.checked_add(d)
}

// The number that digits say in a base: none if one is not a digit of it, or if it has more than 64 bits.
fn digits(text: &[u8], base: u64) -> Option<u64>
    ensures { result ≡ value_in base 0 text.now }
{
    let mut n = 0;
    for b in text {
        n = push_digit(n, base, *b)?;
    }
    Some(n)
}

// The same of at least one digit.
fn some_digits(text: &[u8], base: u64) -> Option<u64>
    ensures { result ≡ some_digits_of base text.now }
{
    if text.is_empty() {
        return None;
    }
    digits(text, base)
}

// A decimal number, or a hexadecimal one after 0x.
pub fn number(text: &[u8]) -> Option<u64>
    ensures { result ≡ number_of text.now }
{
    match text {
        [b'0', b'x', digits @ ..] => some_digits(digits, 16),
        _ => some_digits(text, 10),
    }
}

// A number below zero.
fn negative(n: u64) -> Option<i64>
    ensures { result ≡ minus n }
{
    0i64.checked_sub_unsigned(n)
}

// A number that is not below zero.
fn positive(n: u64) -> Option<i64>
    ensures { result ≡ plus n }
{
    0i64.checked_add_unsigned(n)
}

// A number with or without a sign.
pub fn signed(text: &[u8]) -> Option<i64>
    ensures { result ≡ signed_of text.now }
{
    match text {
        [b'-', digits @ ..] => negative(number(digits)?),
        _ => positive(number(text)?),
    }
}

// A byte of two digits.
fn byte(high: u8, low: u8) -> Option<u8>
    ensures { result ≡ byte_of high low }
{
    Some(digit(high)? * 16 + digit(low)?)
}

// Bytes of two digits each.
fn pairs(heap: Global, text: &[u8]) -> Result<Vec<u8>, BadWord>
    ensures { MatchResult result (λ v. bytes_from text.now ≡ Some v.items) (NoBytes (bytes_from text.now)) }
{
    let (pairs, []) = text.as_chunks::<2>() else {
        return Err(BadWord::NotBytes);
    };
    let mut bytes = Vec::new(heap);
    for [high, low] in pairs {
        bytes.push(byte(*high, *low).ok_or(BadWord::NotBytes)?)?;
    }
    Ok(bytes)
}

// Bytes, or a dash for none.
pub fn hex_bytes(heap: Global, text: &[u8]) -> Result<Vec<u8>, BadWord>
    ensures { MatchResult result (λ v. bytes_named text.now ≡ Some v.items) (NoBytes (bytes_named text.now)) }
{
    match text {
        [b'-'] => Ok(Vec::new(heap)),
        _ => pairs(heap, text),
    }
}
