ghost use Rattle.std.specs.Prelude.{◌≡◌, ℕ, ◌+◌, ◌-◌, ◌≤◌, Bool, true, false, List, [], replicate};
ghost use Rattle.sections.specs.Notes.{distinct};
ghost use Rattle.sections.specs.Section.{Section, Ran};
ghost use Rattle.layers.specs.Layers.{relocated, bare, word_end, word_into};

use super::notes::Notes;
use super::room::check_room;
use numbers::{Address, SectionId};
use sections::{
    Contents, Fault, LinkWriter, Note, Target, Writer, check_size, check_word, write_udata,
};

static ZEROS: [u8; 8] = [0; 8];

// Zeros in the place of a word that is noted.
fn zeros(size: u8) -> &'static [u8]
    requires { size ≤ 8 }
    ensures { result.now ≡ replicate size 0 }
{
    &ZEROS[0..size as usize]
}

// A layer that notes section offsets and symbols, over any writer. The notes are its own, not those below.
#[derive(Drop)]
pub struct Relocating<W> {
    inner: W,
    notes: Notes,
    ghost apart: { distinct notes ≡ true },
}

impl<W: Writer> Relocating<W> {
    // The section below, without a note.
    pub fn new(inner: W) -> Relocating<W>
        ensures { relocated result.notes (W.Writer.meaning result.inner) ≡ bare (W.Writer.meaning inner) }
    {
        Relocating {
            inner,
            notes: Notes::new(),
        }
    }

    // A word of zeros at the end, with a note.
    fn append_note(&mut self, size: u8, target: Target, addend: i128) -> Result<(), Fault>
        ensures { Ran (word_end size target addend) (relocated self.old.notes (W.Writer.meaning self.old.inner)) (relocated self.new.notes (W.Writer.meaning self.new.inner)) result }
    {
        check_size(size)?;
        check_room(&self.inner, size as usize)?;
        let place = self.inner.len();
        if !self.notes.has_room(place) {
            return Err(Fault::NotesFull);
        }
        self.inner.write(zeros(size))?;
        self.notes.put(Note {
            place,
            size,
            target,
            addend,
        });
        Ok(())
    }

    // A word of zeros in the middle, with a note.
    fn place_note(&mut self, at: usize, size: u8, target: Target, addend: i128) -> Result<(), Fault>
        ensures { Ran (word_into at size target addend) (relocated self.old.notes (W.Writer.meaning self.old.inner)) (relocated self.new.notes (W.Writer.meaning self.new.inner)) result }
    {
        check_size(size)?;
        let n = self.inner.len();
        if at > n {
            return Err(Fault::OffsetOutOfBounds);
        }
        if size as usize > n - at {
            return Err(Fault::LengthOutOfBounds);
        }
        if !self.notes.has_room(at) {
            return Err(Fault::NotesFull);
        }
        self.inner.write_at(at, zeros(size))?;
        self.notes.put(Note {
            place: at,
            size,
            target,
            addend,
        });
        Ok(())
    }
}

impl<W: Writer> Writer for Relocating<W> {
    type Endian = W::Endian;

    ghost meaning = { λ w. relocated w.notes (W.Writer.meaning w.inner) };

    ghost bounded = { λ w. W.Writer.bounded w.inner };

    ghost apart = { λ w. w.apart };

    fn endian(&self) -> W::Endian {
        self.inner.endian()
    }

    fn len(&self) -> usize {
        self.inner.len()
    }

    fn left(&self) -> usize {
        self.inner.left()
    }

    fn write(&mut self, bytes: &[u8]) -> Result<(), Fault> {
        self.inner.write(bytes)
    }

    fn write_at(&mut self, offset: usize, bytes: &[u8]) -> Result<(), Fault> {
        self.inner.write_at(offset, bytes)
    }
}

impl<W: Writer> LinkWriter for Relocating<W> {
    const RELOCATES: bool = true;

    ghost relocates = { true };

    fn is_relocating(&self) -> bool {
        true
    }

    #[tactic(auto, using(crate::proofs::Relocates::symbol_noted, crate::proofs::Relocates::constant_noted))]
    fn write_address(&mut self, addr: Address, size: u8) -> Result<(), Fault> {
        match addr {
            Address::Constant(val) => write_udata(self, val, size),
            Address::Symbol { symbol, addend } => {
                self.append_note(size, Target::Symbol(symbol), addend as i128)
            }
        }
    }

    #[tactic(auto, using(crate::proofs::Relocates::offset_noted))]
    fn write_offset(&mut self, val: usize, section: SectionId, size: u8) -> Result<(), Fault> {
        check_word(val as u64, size)?;
        self.append_note(size, Target::Section(section), val as i128)
    }

    #[tactic(auto, using(crate::proofs::Relocates::offset_at_noted))]
    fn write_offset_at(
        &mut self,
        at: usize,
        val: usize,
        section: SectionId,
        size: u8,
    ) -> Result<(), Fault> {
        check_word(val as u64, size)?;
        self.place_note(at, size, Target::Section(section), val as i128)
    }

    #[tactic(auto, unfolding(sections::specs::Section::reference, crate::specs::Layers::word_end))]
    fn write_reference(&mut self, symbol: usize, size: u8) -> Result<(), Fault> {
        self.append_note(size, Target::Symbol(symbol), 0)
    }
}

impl<W: Contents> Contents for Relocating<W> {
    fn bytes(&self) -> &[u8] {
        self.inner.bytes()
    }

    fn notes(&self) -> &[Note] {
        self.notes.as_slice()
    }
}
