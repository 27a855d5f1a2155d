ghost use Rattle.std.specs.Prelude.{◌≡◌, ℕ, ◌^◌, ◌<◌, ◌≤◌, true, false};
ghost use Rattle.std.proofs.Common.{lit≤};
ghost use Rattle.numbers.specs.Orders.{bytes_of, value_of};

// A type of numbers that have N bytes.
pub trait Number<const N: usize>: Copy {
    // the natural number that it is
    ghost value: { Self → ℕ };

    fn to_le_bytes(self) -> [u8; N]
        ensures bytes { result ≡ bytes_of false N (value self) }
        ensures fits { value self < 256 ^ N };

    fn to_be_bytes(self) -> [u8; N]
        ensures bytes { result ≡ bytes_of true N (value self) }
        ensures fits { value self < 256 ^ N };

    fn from_le_bytes(bytes: [u8; N]) -> Self
        ensures { value result ≡ value_of false bytes.entry };

    fn from_be_bytes(bytes: [u8; N]) -> Self
        ensures { value result ≡ value_of true bytes.entry };

    // laws: a value is one number's, and no number has more than sixteen bytes
    ghost one: { (m n : Self) → value m ≡ value n → m ≡ n };

    ghost few: { N ≤ 16 };
}

// The five types, each by the methods that it has: a macro cannot write an `impl` here.
#[tactic(auto, unfolding(crate::specs::Orders::bytes_of, crate::specs::Orders::value_of))]
impl Number<1> for u8 {
    ghost value = { λ n. n };

    ghost one = { λ m n e. e };

    ghost few = { lit≤ tt };

    fn to_le_bytes(self) -> [u8; 1] {
        u8::to_le_bytes(self)
    }

    fn to_be_bytes(self) -> [u8; 1] {
        u8::to_be_bytes(self)
    }

    fn from_le_bytes(bytes: [u8; 1]) -> u8
        ensures { result ≡ value_of false bytes }
    {
        u8::from_le_bytes(bytes)
    }

    fn from_be_bytes(bytes: [u8; 1]) -> u8
        ensures { result ≡ value_of true bytes }
    {
        u8::from_be_bytes(bytes)
    }
}

#[tactic(auto, unfolding(crate::specs::Orders::bytes_of, crate::specs::Orders::value_of))]
impl Number<2> for u16 {
    ghost value = { λ n. n };

    ghost one = { λ m n e. e };

    ghost few = { lit≤ tt };

    fn to_le_bytes(self) -> [u8; 2] {
        u16::to_le_bytes(self)
    }

    fn to_be_bytes(self) -> [u8; 2] {
        u16::to_be_bytes(self)
    }

    fn from_le_bytes(bytes: [u8; 2]) -> u16
        ensures { result ≡ value_of false bytes }
    {
        u16::from_le_bytes(bytes)
    }

    fn from_be_bytes(bytes: [u8; 2]) -> u16
        ensures { result ≡ value_of true bytes }
    {
        u16::from_be_bytes(bytes)
    }
}

#[tactic(auto, unfolding(crate::specs::Orders::bytes_of, crate::specs::Orders::value_of))]
impl Number<4> for u32 {
    ghost value = { λ n. n };

    ghost one = { λ m n e. e };

    ghost few = { lit≤ tt };

    fn to_le_bytes(self) -> [u8; 4] {
        u32::to_le_bytes(self)
    }

    fn to_be_bytes(self) -> [u8; 4] {
        u32::to_be_bytes(self)
    }

    fn from_le_bytes(bytes: [u8; 4]) -> u32
        ensures { result ≡ value_of false bytes }
    {
        u32::from_le_bytes(bytes)
    }

    fn from_be_bytes(bytes: [u8; 4]) -> u32
        ensures { result ≡ value_of true bytes }
    {
        u32::from_be_bytes(bytes)
    }
}

#[tactic(auto, unfolding(crate::specs::Orders::bytes_of, crate::specs::Orders::value_of))]
impl Number<8> for u64 {
    ghost value = { λ n. n };

    ghost one = { λ m n e. e };

    ghost few = { lit≤ tt };

    fn to_le_bytes(self) -> [u8; 8] {
        u64::to_le_bytes(self)
    }

    fn to_be_bytes(self) -> [u8; 8] {
        u64::to_be_bytes(self)
    }

    fn from_le_bytes(bytes: [u8; 8]) -> u64
        ensures { result ≡ value_of false bytes }
    {
        u64::from_le_bytes(bytes)
    }

    fn from_be_bytes(bytes: [u8; 8]) -> u64
        ensures { result ≡ value_of true bytes }
    {
        u64::from_be_bytes(bytes)
    }
}

#[tactic(auto, unfolding(crate::specs::Orders::bytes_of, crate::specs::Orders::value_of))]
impl Number<16> for u128 {
    ghost value = { λ n. n };

    ghost one = { λ m n e. e };

    ghost few = { lit≤ tt };

    fn to_le_bytes(self) -> [u8; 16] {
        u128::to_le_bytes(self)
    }

    fn to_be_bytes(self) -> [u8; 16] {
        u128::to_be_bytes(self)
    }

    fn from_le_bytes(bytes: [u8; 16]) -> u128
        ensures { result ≡ value_of false bytes }
    {
        u128::from_le_bytes(bytes)
    }

    fn from_be_bytes(bytes: [u8; 16]) -> u128
        ensures { result ≡ value_of true bytes }
    {
        u128::from_be_bytes(bytes)
    }
}
