ghost use Rattle.std.specs.Prelude.{◌≡◌, ℕ, ◌+◌, ◌-◌, ◌≤◌, min, Bool, true, false, [], ◌∷◌, length};
ghost use Rattle.sections.specs.Section.{Section, verdict, capped, symbol_checks, address_checks};
ghost use Rattle.layers.specs.Layers.{capped_bounded};

use super::room::check_room;
use numbers::{Address, SectionId};
use sections::{Contents, Fault, LinkWriter, Note, Writer, check_size, check_word};

// Whether a symbol can be written: declined by `fault` where the writer does not relocate.
fn check_symbol<L: LinkWriter>(w: &L, fault: Fault, size: u8) -> Result<(), Fault>
    ensures { result ≡ verdict (symbol_checks L.LinkWriter.relocates fault size) }
{
    if !w.is_relocating() {
        return Err(fault);
    }
    check_size(size)
}

// What is checked of an address before the section's room.
fn check_address<L: LinkWriter>(w: &L, addr: Address, size: u8) -> Result<(), Fault>
    ensures { result ≡ verdict (address_checks L.LinkWriter.relocates addr size) }
{
    match addr {
        Address::Constant(val) => check_word(val, size),
        Address::Symbol { .. } => check_symbol(w, Fault::InvalidAddress, size),
    }
}

// A layer that caps the section's length, over any writer that links.
#[derive(Drop)]
pub struct Quota<L> {
    inner: L,
    limit: usize,
}

impl<L: LinkWriter> Quota<L> {
    // The section below, under a limit.
    pub fn new(inner: L, limit: usize) -> Quota<L>
        ensures { capped result.limit (L.Writer.meaning result.inner) ≡ capped limit (L.Writer.meaning inner) }
    {
        Quota { inner, limit }
    }
}

impl<L: LinkWriter> Writer for Quota<L> {
    type Endian = L::Endian;

    ghost meaning = { λ w. capped w.limit (L.Writer.meaning w.inner) };

    ghost bounded = { λ w. capped_bounded w.limit (L.Writer.meaning w.inner) (L.Writer.bounded w.inner) };

    ghost apart = { λ w. L.Writer.apart w.inner };

    fn endian(&self) -> L::Endian {
        self.inner.endian()
    }

    fn len(&self) -> usize {
        self.inner.len()
    }

    fn left(&self) -> usize {
        let mine = self.limit.saturating_sub(self.inner.len());
        self.inner.left().min(mine)
    }

    #[tactic(auto, using(crate::proofs::Caps::ran_append))]
    fn write(&mut self, bytes: &[u8]) -> Result<(), Fault> {
        if self.left() < bytes.len() {
            return Err(Fault::SectionFull);
        }
        self.inner.write(bytes)
    }

    fn write_at(&mut self, offset: usize, bytes: &[u8]) -> Result<(), Fault> {
        self.inner.write_at(offset, bytes)
    }
}

impl<L: LinkWriter> LinkWriter for Quota<L> {
    const RELOCATES: bool = L::RELOCATES;

    ghost relocates = { L.LinkWriter.relocates };

    fn is_relocating(&self) -> bool {
        self.inner.is_relocating()
    }

    #[tactic(auto, using(crate::proofs::Caps::ran_address))]
    fn write_address(&mut self, addr: Address, size: u8) -> Result<(), Fault> {
        check_address(&self.inner, addr, size)?;
        check_room(self, size as usize)?;
        self.inner.write_address(addr, size)
    }

    #[tactic(auto, using(crate::proofs::Caps::ran_offset))]
    fn write_offset(&mut self, val: usize, section: SectionId, size: u8) -> Result<(), Fault> {
        check_word(val as u64, size)?;
        check_room(self, size as usize)?;
        self.inner.write_offset(val, section, size)
    }

    fn write_offset_at(
        &mut self,
        at: usize,
        val: usize,
        section: SectionId,
        size: u8,
    ) -> Result<(), Fault> {
        self.inner.write_offset_at(at, val, section, size)
    }

    #[tactic(auto, using(crate::proofs::Caps::ran_reference))]
    fn write_reference(&mut self, symbol: usize, size: u8) -> Result<(), Fault> {
        check_symbol(&self.inner, Fault::InvalidReference, size)?;
        check_room(self, size as usize)?;
        self.inner.write_reference(symbol, size)
    }
}

impl<L: LinkWriter + Contents> Contents for Quota<L> {
    fn bytes(&self) -> &[u8] {
        self.inner.bytes()
    }

    fn notes(&self) -> &[Note] {
        self.inner.notes()
    }
}
