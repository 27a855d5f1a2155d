ghost use Rattle.std.specs.Prelude.{◌≡◌, ◌+◌, ◌<◌, length};
ghost use Rattle.numbers.specs.Leb.{leb, read_leb, Reads, Shortest};
ghost use Rattle.numbers.specs.Encoded.{encoded};

use super::Leb128;
use super::septets::Septets;

// Seven bits, with the mark that more bytes follow.
fn continued(low: u8) -> u8
    requires { low < 128 }
    ensures { result ≡ low + 128 }
{
    low | 0x80
}

impl Leb128 {
    // A number's LEB128: all groups but the last are marked.
    pub fn new<S: Septets>(mut val: S) -> Leb128
        ensures bytes { encoded result ≡ leb S.groups val }
        ensures reads { Reads (read_leb S.groups) val (encoded result) }
        ensures shortest { Shortest (read_leb S.groups) val (encoded result) }
    {
        let mut bytes = [0; 10];
        let mut len = 0;
        while !val.is_last() {
            bytes[len] = continued(val.low());
            len += 1;
            val = val.rest();
        }
        bytes[len] = val.low();
        Leb128 {
            bytes,
            len: len + 1,
        }
    }

    pub fn bytes(&self) -> &[u8]
        ensures { result.now ≡ encoded self.now }
    {
        &self.bytes[0..self.len]
    }

    pub fn len(&self) -> usize
        ensures { result ≡ length (encoded self.now) }
    {
        self.len
    }
}
