ghost use Rattle.std.specs.Prelude.{◌≡◌, ◌^◌, ◌<◌};
ghost use Rattle.numbers.specs.Leb.{Grouping, unsigned, signed};
ghost use Rattle.numbers.specs.Grouping.{Laws, unsigned_laws, signed_laws};

// A 64-bit number that LEB128 writes, seven bits at a time.
pub trait Septets: Copy {
    ghost groups: { Grouping Self };

    // Whether seven bits show it.
    fn is_last(self) -> bool
        ensures last { result ≡ groups.is_last self }
        ensures fits { groups.reach self < 2 ^ 63 };

    // The low seven bits.
    fn low(self) -> u8
        ensures { result ≡ groups.low self };

    // What the low seven bits leave.
    fn rest(self) -> Self
        ensures { result ≡ groups.rest self };

    // reading undoes writing
    ghost laws: { Laws groups };
}

impl Septets for u64 {
    ghost groups = { unsigned };

    ghost laws = { unsigned_laws };

    fn is_last(self) -> bool {
        self < 128
    }

    fn low(self) -> u8 {
        (self & 0x7f) as u8
    }

    fn rest(self) -> u64 {
        self / 128
    }
}

impl Septets for i64 {
    ghost groups = { signed };

    ghost laws = { signed_laws };

    // All above bit 6 is the sign.
    fn is_last(self) -> bool {
        let sign = self >> 6;
        sign == 0 || sign == -1
    }

    // The low bits are those of two's complement.
    fn low(self) -> u8 {
        self.cast_unsigned().low()
    }

    // The shift is arithmetic.
    fn rest(self) -> i64 {
        self >> 7
    }
}
