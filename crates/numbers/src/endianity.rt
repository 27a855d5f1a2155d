ghost use Rattle.std.specs.Prelude.{◌≡◌, ℕ, ◌^◌, ◌<◌, Bool, true, false, not, if◌then◌else◌, Some, None, nat_lt};
ghost use Rattle.numbers.specs.Common.{IsNamed};
ghost use Rattle.numbers.specs.Orders.{bytes_of, halves_of, value_of, is_big, order_name};
ghost use Rattle.numbers.specs.Reading.{value_bytes_of};

mod number;

use super::common::UnknownName;
pub use number::Number;
use std::fmt;
use std::str::FromStr;

// A byte order.
pub trait Endianity: Copy {
    // whether the byte of most weight comes first
    ghost big: { Self → Bool };

    fn is_big_endian(self) -> bool
        ensures { result ≡ big self };

    fn is_little_endian(self) -> bool
        ensures { result ≡ not (big self) }
    {
        !self.is_big_endian()
    }

    // reading undoes writing
    ghost undoes: { (e : Self) (size n : ℕ) → n < 256 ^ size → value_of (big e) (bytes_of (big e) size n) ≡ n } = { λ e. value_bytes_of (big e) };
}

#[derive(Clone, Copy, Debug, PartialEq, Eq, Hash)]
pub struct LittleEndian;

impl Endianity for LittleEndian {
    ghost big = { λ _. false };

    fn is_big_endian(self) -> bool {
        false
    }
}

#[derive(Clone, Copy, Debug, PartialEq, Eq, Hash)]
pub struct BigEndian;

impl Endianity for BigEndian {
    ghost big = { λ _. true };

    fn is_big_endian(self) -> bool {
        true
    }
}

// A byte order that is chosen at run time.
#[derive(Clone, Copy, Debug, PartialEq, Eq, Hash)]
pub enum RunTimeEndian {
    Little,
    Big,
}

impl Endianity for RunTimeEndian {
    ghost big = { is_big };

    fn is_big_endian(self) -> bool {
        match self {
            RunTimeEndian::Little => false,
            RunTimeEndian::Big => true,
        }
    }
}

impl fmt::Display for RunTimeEndian {
    ghost output = { λ endian. Some (order_name endian) };

    fn fmt<W: fmt::Write>(&self, f: &mut fmt::Formatter<W>) -> fmt::Result {
        match self {
            RunTimeEndian::Little => f.write_str("little"),
            RunTimeEndian::Big => f.write_str("big"),
        }
    }
}

impl FromStr for RunTimeEndian {
    type Err = UnknownName;

    ghost from_str_gives = { IsNamed order_name };

    fn from_str(name: &str) -> Result<RunTimeEndian, UnknownName> {
        match name {
            "little" => Ok(RunTimeEndian::Little),
            "big" => Ok(RunTimeEndian::Big),
            _ => Err(UnknownName),
        }
    }
}

// The bytes of a number. Sixteen are two halves of eight: the high one first if big-endian, else the low one.
#[tactic(auto, using(crate::proofs::Orders::bytes_halves))]
pub fn encode<E: Endianity, T: Number<N>, const N: usize>(endian: E, n: T) -> [u8; N]
    ensures whole { result ≡ bytes_of (E.Endianity.big endian) N (T.value n) }
    ensures halves { N ≡ 16 → result ≡ halves_of (E.Endianity.big endian) (T.value n) }
    ensures fits { T.value n < 256 ^ N }
{
    if endian.is_big_endian() {
        n.to_be_bytes()
    } else {
        n.to_le_bytes()
    }
}

// The number that bytes say.
pub fn decode<E: Endianity, T: Number<N>, const N: usize>(endian: E, bytes: [u8; N]) -> T
    ensures { T.value result ≡ value_of (E.Endianity.big endian) bytes.entry }
{
    if endian.is_big_endian() {
        T::from_be_bytes(bytes)
    } else {
        T::from_le_bytes(bytes)
    }
}

// Three bytes hold no number from 2^24 up. No type of Rust's has just the numbers below, so this pair stays beside
// `encode`: a type of our own would have to be made of a `u32` first, by this very test.
pub fn encode_u24<E: Endianity>(endian: E, n: u32) -> Option<[u8; 3]>
    ensures { result ≡ (if nat_lt n (2 ^ 24) then Some (bytes_of (E.Endianity.big endian) 3 n) else None) }
{
    if n < 0x100_0000 {
        Some(low_three(endian.is_big_endian(), n))
    } else {
        None
    }
}

// The low three bytes of a number.
#[tactic(auto, unfolding(crate::specs::Orders::bytes_of))]
fn low_three(big: bool, n: u32) -> [u8; 3]
    ensures { result ≡ bytes_of big 3 n }
{
    if big {
        let [_, high, middle, low] = n.to_be_bytes();
        [high, middle, low]
    } else {
        let [low, middle, high, _] = n.to_le_bytes();
        [low, middle, high]
    }
}

#[tactic(auto, unfolding(crate::specs::Orders::value_of))]
pub fn decode_u24<E: Endianity>(endian: E, bytes: [u8; 3]) -> u32
    ensures { result ≡ value_of (E.Endianity.big endian) bytes }
{
    let [a, b, c] = bytes;
    if endian.is_big_endian() {
        u32::from_be_bytes([0, a, b, c])
    } else {
        u32::from_le_bytes([a, b, c, 0])
    }
}
