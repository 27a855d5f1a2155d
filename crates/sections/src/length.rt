ghost use Rattle.std.specs.Prelude.{◌≡◌};
ghost use Rattle.sections.specs.Section.{Section, Ran};
ghost use Rattle.sections.specs.Lengths.{escape, opened as opens, length_at, reserved_length};

use super::data::{write_number, write_udata, write_udata_at};
use super::fault::Fault;
use super::token::InitialLengthOffset;
use super::writer::Writer;
use numbers::Format;

// The lowest 32-bit length that the standard reserves.
const RESERVED: u64 = 0xffff_fff0;

impl InitialLengthOffset {
    // The place of the length word.
    pub fn offset(&self) -> usize
        ensures { result ≡ self.now.offset }
    {
        self.offset
    }

    // Leaves the length word as it is, and answers its place.
    pub fn give_up(self) -> usize
        ensures { result ≡ self.offset }
    {
        let InitialLengthOffset { offset, format: _ } = self;
        offset
    }
}

// What stands before a 64-bit length.
#[tactic(auto, unfolding(crate::specs::Lengths::escape))]
fn write_escape<W: Writer>(w: &mut W, format: Format) -> Result<(), Fault>
    ensures { Ran (escape format) (W.Writer.meaning w.old) (W.Writer.meaning w.new) result }
{
    match format {
        Format::Dwarf32 => Ok(()),
        Format::Dwarf64 => write_number(w, 0xffff_ffff_u32),
    }
}

// Whether the standard reserves a length.
fn is_reserved(format: Format, length: u64) -> bool
    ensures { result ≡ reserved_length format length }
{
    match format {
        Format::Dwarf32 => length >= RESERVED,
        Format::Dwarf64 => false,
    }
}

// Opens a length word: zero for now.
#[tactic(auto, unfolding(crate::specs::Lengths::opened, crate::specs::Lengths::opens_word))]
pub fn write_initial_length<W: Writer>(
    w: &mut W,
    format: Format,
) -> Result<InitialLengthOffset, Fault>
    ensures { Ran (opens format) (W.Writer.meaning w.old) (W.Writer.meaning w.new) result }
{
    write_escape(w, format)?;
    let offset = w.len();
    write_udata(w, 0, format.word_size())?;
    Ok(InitialLengthOffset { offset, format })
}

// Fills a length word that was opened. A 32-bit length that the standard reserves is too large.
#[tactic(auto, unfolding(crate::specs::Lengths::length_at))]
pub fn write_initial_length_at<W: Writer>(
    w: &mut W,
    opened: InitialLengthOffset,
    length: u64,
) -> Result<(), Fault>
    ensures { Ran (length_at opened length) (W.Writer.meaning w.old) (W.Writer.meaning w.new) result }
{
    let InitialLengthOffset { offset, format } = opened;
    if is_reserved(format, length) {
        return Err(Fault::ValueTooLarge);
    }
    write_udata_at(w, offset, length, format.word_size())
}
