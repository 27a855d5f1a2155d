ghost use Rattle.std.specs.Prelude.{◌≡◌, false, refl};
ghost use Rattle.numbers.specs.Orders.{is_big};
ghost use Rattle.writers.specs.Memory.{used, lent, lent_bounded, empty_over};

use super::memory::{append_front, place_front, room};
use super::plain::{plain_address, plain_offset, plain_offset_at};
use numbers::{Address, RunTimeEndian, SectionId};
use sections::{Contents, Fault, LinkWriter, Note, Writer};

// A writer over the caller's memory, whose byte order is told at run time.
// It and `PageWriter` stay two types, each in its form: this one lends memory, that one owns a page and has its order in its type.
#[derive(Drop)]
pub struct SliceWriter<'a> {
    memory: &'a mut [u8],
    len: usize,
    endian: RunTimeEndian,
}

impl<'a> SliceWriter<'a> {
    // An empty section over memory.
    pub fn new(memory: &'a mut [u8], endian: RunTimeEndian) -> SliceWriter<'a>
        ensures { lent (is_big result.endian) result.len result.memory.now ≡ empty_over (is_big endian) memory.old }
    {
        SliceWriter {
            memory,
            len: 0,
            endian,
        }
    }

    // How many bytes of memory are the section's.
    fn used(&self) -> usize
        ensures { result ≡ used self.now.len self.now.memory.now }
    {
        self.len.min(room(self.memory))
    }
}

impl<'a> Writer for SliceWriter<'a> {
    type Endian = RunTimeEndian;

    ghost meaning = { λ w. lent (is_big w.endian) w.len w.memory.now };

    ghost bounded = { λ w. lent_bounded (is_big w.endian) w.len w.memory.now };

    ghost apart = { λ w. refl };

    fn endian(&self) -> RunTimeEndian {
        self.endian
    }

    fn len(&self) -> usize {
        self.used()
    }

    fn left(&self) -> usize {
        room(self.memory) - self.used()
    }

    fn write(&mut self, bytes: &[u8]) -> Result<(), Fault> {
        let len = self.used();
        self.len = append_front(self.memory, len, bytes)?;
        Ok(())
    }

    fn write_at(&mut self, offset: usize, bytes: &[u8]) -> Result<(), Fault> {
        let len = self.used();
        place_front(self.memory, len, offset, bytes)
    }
}

impl<'a> LinkWriter for SliceWriter<'a> {
    const RELOCATES: bool = false;

    ghost relocates = { false };

    fn is_relocating(&self) -> bool {
        Self::RELOCATES
    }

    fn write_address(&mut self, addr: Address, size: u8) -> Result<(), Fault> {
        plain_address(self, addr, size)
    }

    fn write_offset(&mut self, val: usize, section: SectionId, size: u8) -> Result<(), Fault> {
        plain_offset(self, val, section, size)
    }

    fn write_offset_at(
        &mut self,
        at: usize,
        val: usize,
        section: SectionId,
        size: u8,
    ) -> Result<(), Fault> {
        plain_offset_at(self, at, val, section, size)
    }

    fn write_reference(&mut self, _symbol: usize, _size: u8) -> Result<(), Fault> {
        Err(Fault::InvalidReference)
    }
}

impl<'a> Contents for SliceWriter<'a> {
    fn bytes(&self) -> &[u8] {
        &self.memory[0..self.used()]
    }

    fn notes(&self) -> &[Note] {
        &[]
    }
}
