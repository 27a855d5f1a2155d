ghost use Rattle.std.specs.Prelude.{◌≡◌, length};
ghost use Rattle.numbers.specs.Leb.{leb};

use super::septets::Septets;

// The number of bytes of a number's LEB128, without making them.
pub fn leb128_size<S: Septets>(mut val: S) -> usize
    ensures { result ≡ length (leb S.groups val) }
{
    let mut len = 0;
    while !val.is_last() {
        len += 1;
        val = val.rest();
    }
    len + 1
}
