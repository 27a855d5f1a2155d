ghost use Rattle.std.specs.Prelude.{◌≡◌, false};
ghost use Rattle.sections.specs.Section.{Section, Ran, address, offset, offset_at};

use numbers::{Address, SectionId};
use sections::{Fault, Writer, write_udata, write_udata_at};

// An address by a writer that does not relocate.
pub fn plain_address<W: Writer>(w: &mut W, addr: Address, size: u8) -> Result<(), Fault>
    ensures { Ran (address false addr size) (W.Writer.meaning w.old) (W.Writer.meaning w.new) result }
{
    match addr {
        Address::Constant(val) => write_udata(w, val, size),
        Address::Symbol { .. } => Err(Fault::InvalidAddress),
    }
}

// A section offset by a writer that does not relocate.
pub fn plain_offset<W: Writer>(
    w: &mut W,
    val: usize,
    section: SectionId,
    size: u8,
) -> Result<(), Fault>
    ensures { Ran (offset false val section size) (W.Writer.meaning w.old) (W.Writer.meaning w.new) result }
{
    write_udata(w, val as u64, size)
}

// The same in the middle.
pub fn plain_offset_at<W: Writer>(
    w: &mut W,
    at: usize,
    val: usize,
    section: SectionId,
    size: u8,
) -> Result<(), Fault>
    ensures { Ran (offset_at false at val section size) (W.Writer.meaning w.old) (W.Writer.meaning w.new) result }
{
    write_udata_at(w, at, val as u64, size)
}
