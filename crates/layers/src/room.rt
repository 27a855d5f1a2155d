ghost use Rattle.std.specs.Prelude.{◌≡◌, [], ◌∷◌};
ghost use Rattle.sections.specs.Section.{Section, full, verdict};

use sections::{Fault, Writer};

// Whether a writer has room for more bytes.
pub fn check_room<W: Writer>(w: &W, n: usize) -> Result<(), Fault>
    ensures { result ≡ verdict (full n (W.Writer.meaning w.now) ∷ []) }
{
    if w.left() < n {
        return Err(Fault::SectionFull);
    }
    Ok(())
}
