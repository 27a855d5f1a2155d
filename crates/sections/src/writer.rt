ghost use Rattle.std.specs.Prelude.{◌≡◌, ℕ, ◌+◌, ◌≤◌, Bool, true, length};
ghost use Rattle.sections.specs.Notes.{distinct};
ghost use Rattle.sections.specs.Section.{Section, Ran, append, place, offset, offset_at, address, reference, section_limit};

use super::fault::Fault;
use numbers::{Address, Endianity, SectionId};

// A writer of a DWARF section, by its meaning: byte order, bytes, notes, and how many of each are left.
pub trait Writer {
    type Endian: Endianity;

    ghost meaning: { Self → Section };

    // laws: length plus left is within the section limit; no two notes share a place
    ghost bounded: { (w : Self) → length (meaning w).bytes + (meaning w).left ≤ section_limit };

    ghost apart: { (w : Self) → distinct (meaning w).notes ≡ true };

    // The byte order.
    fn endian(&self) -> Self::Endian
        ensures { Self.Endian.Endianity.big result ≡ (meaning self.now).big };

    // The section's length.
    fn len(&self) -> usize
        ensures { result ≡ length (meaning self.now).bytes };

    // How many bytes are left.
    fn left(&self) -> usize
        ensures { result ≡ (meaning self.now).left };

    // Appends bytes.
    fn write(&mut self, bytes: &[u8]) -> Result<(), Fault>
        ensures { Ran (append bytes.now) (meaning self.old) (meaning self.new) result };

    // Overwrites the bytes from an offset on.
    fn write_at(&mut self, offset: usize, bytes: &[u8]) -> Result<(), Fault>
        ensures { Ran (place offset bytes.now) (meaning self.old) (meaning self.new) result };
}

// A writer that links: what is relative to a section or a symbol is a number, or is noted as a relocation.
pub trait LinkWriter: Writer {
    const RELOCATES: bool;

    ghost relocates: { Bool };

    // Whether offsets and symbols are noted.
    fn is_relocating(&self) -> bool
        ensures { result ≡ relocates };

    // Appends an address.
    fn write_address(&mut self, addr: Address, size: u8) -> Result<(), Fault>
        ensures { Ran (address relocates addr size) (Self.Writer.meaning self.old) (Self.Writer.meaning self.new) result };

    // Appends an offset from the start of a section.
    fn write_offset(&mut self, val: usize, section: SectionId, size: u8) -> Result<(), Fault>
        ensures { Ran (offset relocates val section size) (Self.Writer.meaning self.old) (Self.Writer.meaning self.new) result };

    // Overwrites a word by an offset from the start of a section.
    fn write_offset_at(
        &mut self,
        at: usize,
        val: usize,
        section: SectionId,
        size: u8,
    ) -> Result<(), Fault>
        ensures { Ran (offset_at relocates at val section size) (Self.Writer.meaning self.old) (Self.Writer.meaning self.new) result };

    // Appends a reference to a symbol.
    fn write_reference(&mut self, symbol: usize, size: u8) -> Result<(), Fault>
        ensures { Ran (reference relocates symbol size) (Self.Writer.meaning self.old) (Self.Writer.meaning self.new) result };
}
