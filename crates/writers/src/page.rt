ghost use Rattle.std.specs.Prelude.{◌≡◌, ℕ, ◌+◌, ◌-◌, ◌≤◌, min, Bool, true, false, [], length, replicate, refl};
ghost use Rattle.sections.specs.Section.{Section, Ran, append, place};
ghost use Rattle.writers.specs.Memory.{front, front_bounded, section_room, empty_page};

use super::memory::{append_front, place_front, room};
use super::plain::{plain_address, plain_offset, plain_offset_at};
use numbers::{Address, Endianity, SectionId};
use sections::{Contents, Fault, LinkWriter, Note, Writer};

// A page of memory, and how much of it is in use.
#[derive(Drop)]
struct Page {
    bytes: [u8; 4096],
    len: usize,
    ghost whole: { length bytes ≡ 4096 },
    ghost within: { len ≤ section_room bytes },
}

impl Page {
    fn append(&mut self, bytes: &[u8]) -> Result<(), Fault>
        ensures { (big : Bool) → Ran (append bytes.now) (front big self.old.len self.old.bytes) (front big self.new.len self.new.bytes) result }
    {
        self.len = append_front(&mut self.bytes, self.len, bytes)?;
        Ok(())
    }

    fn place(&mut self, offset: usize, bytes: &[u8]) -> Result<(), Fault>
        ensures { (big : Bool) → Ran (place offset bytes.now) (front big self.old.len self.old.bytes) (front big self.new.len self.new.bytes) result }
    {
        place_front(&mut self.bytes, self.len, offset, bytes)
    }
}

// A writer over a page of its own, whose byte order is in its type.
#[derive(Drop)]
pub struct PageWriter<E> {
    page: Page,
    endian: E,
}

impl<E: Endianity> PageWriter<E> {
    // An empty section over a page of zeros.
    pub fn new(endian: E) -> PageWriter<E>
        ensures empty { front (E.Endianity.big result.endian) result.page.len result.page.bytes ≡ empty_page (E.Endianity.big endian) }
        ensures zeros { result.page.bytes ≡ replicate 4096 0 }
    {
        PageWriter {
            page: Page {
                bytes: [0; 4096],
                len: 0,
            },
            endian,
        }
    }
}

impl<E: Endianity> Writer for PageWriter<E> {
    type Endian = E;

    ghost meaning = { λ w. front (E.Endianity.big w.endian) w.page.len w.page.bytes };

    ghost bounded = { λ w. front_bounded (E.Endianity.big w.endian) w.page.len w.page.bytes w.page.within };

    ghost apart = { λ w. refl };

    fn endian(&self) -> E {
        self.endian
    }

    fn len(&self) -> usize {
        self.page.len
    }

    fn left(&self) -> usize {
        room(&self.page.bytes) - self.page.len
    }

    fn write(&mut self, bytes: &[u8]) -> Result<(), Fault> {
        self.page.append(bytes)
    }

    fn write_at(&mut self, offset: usize, bytes: &[u8]) -> Result<(), Fault> {
        self.page.place(offset, bytes)
    }
}

impl<E: Endianity> LinkWriter for PageWriter<E> {
    const RELOCATES: bool = false;

    ghost relocates = { false };

    // Not `Self::RELOCATES`: the check knows no constant of a generic impl.
    fn is_relocating(&self) -> bool {
        false
    }

    fn write_address(&mut self, addr: Address, size: u8) -> Result<(), Fault> {
        plain_address(self, addr, size)
    }

    fn write_offset(&mut self, val: usize, section: SectionId, size: u8) -> Result<(), Fault> {
        plain_offset(self, val, section, size)
    }

    fn write_offset_at(
        &mut self,
        at: usize,
        val: usize,
        section: SectionId,
        size: u8,
    ) -> Result<(), Fault> {
        plain_offset_at(self, at, val, section, size)
    }

    fn write_reference(&mut self, _symbol: usize, _size: u8) -> Result<(), Fault> {
        Err(Fault::InvalidReference)
    }
}

impl<E: Endianity> Contents for PageWriter<E> {
    fn bytes(&self) -> &[u8] {
        &self.page.bytes[0..self.page.len]
    }

    fn notes(&self) -> &[Note] {
        &[]
    }
}
