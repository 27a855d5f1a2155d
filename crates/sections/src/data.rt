ghost use Rattle.std.specs.Prelude.{◌≡◌, ℕ, ◌≤◌};
ghost use Rattle.numbers.specs.Leb.{leb};
ghost use Rattle.sections.specs.Words.{significant};
ghost use Rattle.sections.specs.Section.{Section, Ran, append, number, number_into, udata, udata_at};

use super::fault::Fault;
use super::word::check_word;
use super::writer::Writer;
use numbers::{Endianity, Leb128, Number, Septets, encode};

// Appends a number of N bytes.
pub fn write_number<W: Writer, T: Number<N>, const N: usize>(w: &mut W, val: T) -> Result<(), Fault>
    ensures { Ran (number N (T.value val)) (W.Writer.meaning w.old) (W.Writer.meaning w.new) result }
{
    let endian = w.endian();
    w.write(&encode(endian, val))
}

// Overwrites N bytes by a number.
pub fn write_number_at<W: Writer, T: Number<N>, const N: usize>(
    w: &mut W,
    offset: usize,
    val: T,
) -> Result<(), Fault>
    ensures { Ran (number_into offset N (T.value val)) (W.Writer.meaning w.old) (W.Writer.meaning w.new) result }
{
    let endian = w.endian();
    w.write_at(offset, &encode(endian, val))
}

// The bytes of a word, out of the eight bytes of its number: the last if big-endian, else the first.
fn word_bytes<E: Endianity>(endian: E, eight: &[u8; 8], size: u8) -> &[u8]
    requires { size ≤ 8 }
    ensures { result.now ≡ significant (E.Endianity.big endian) size eight.now }
{
    let k = size as usize;
    if endian.is_big_endian() {
        &eight[8 - k..]
    } else {
        &eight[..k]
    }
}

// Appends a word of 1, 2, 3, 4 or 8 bytes.
#[tactic(auto, using(crate::proofs::Words::word_of), unfolding(crate::specs::Section::udata))]
pub fn write_udata<W: Writer>(w: &mut W, val: u64, size: u8) -> Result<(), Fault>
    ensures { Ran (udata val size) (W.Writer.meaning w.old) (W.Writer.meaning w.new) result }
{
    check_word(val, size)?;
    let endian = w.endian();
    w.write(word_bytes(endian, &encode(endian, val), size))
}

// Overwrites a word of 1, 2, 3, 4 or 8 bytes.
#[tactic(auto, using(crate::proofs::Words::word_of), unfolding(crate::specs::Section::udata_at))]
pub fn write_udata_at<W: Writer>(w: &mut W, offset: usize, val: u64, size: u8) -> Result<(), Fault>
    ensures { Ran (udata_at offset val size) (W.Writer.meaning w.old) (W.Writer.meaning w.new) result }
{
    check_word(val, size)?;
    let endian = w.endian();
    w.write_at(offset, word_bytes(endian, &encode(endian, val), size))
}

// Appends a number in LEB128.
pub fn write_leb128<W: Writer, S: Septets>(w: &mut W, val: S) -> Result<(), Fault>
    ensures { Ran (append (leb S.groups val)) (W.Writer.meaning w.old) (W.Writer.meaning w.new) result }
{
    w.write(Leb128::new(val).bytes())
}
