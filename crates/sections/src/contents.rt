ghost use Rattle.std.specs.Prelude.{◌≡◌};
ghost use Rattle.sections.specs.Section.{Section};

use super::note::Note;
use super::writer::Writer;

// What a writer holds, to be read.
pub trait Contents: Writer {
    // The section's bytes.
    fn bytes(&self) -> &[u8]
        ensures { result.now ≡ (Self.Writer.meaning self.now).bytes };

    // The notes, in the order in which their places were first noted.
    fn notes(&self) -> &[Note]
        ensures { result.now ≡ (Self.Writer.meaning self.now).notes };
}
