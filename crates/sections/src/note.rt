ghost use Rattle.std.specs.Prelude.{Some};
ghost use Rattle.sections.specs.Notes.{target_name};

use numbers::SectionId;
use std::fmt;

// What a noted word is relative to: the start of a section, or a symbol.
#[derive(Clone, Copy, Debug, PartialEq, Eq, Hash)]
pub enum Target {
    Section(SectionId),
    Symbol(usize),
}

// A section's name, or a symbol's number.
impl fmt::Display for Target {
    ghost output = { λ target. Some (target_name target) };

    fn fmt<W: fmt::Write>(&self, f: &mut fmt::Formatter<W>) -> fmt::Result {
        match self {
            Target::Section(section) => write!(f, "{section}"),
            Target::Symbol(symbol) => write!(f, "symbol {symbol}"),
        }
    }
}

// A relocation: the word of `size` bytes at `place` is the target's address plus the addend.
// The addend holds any 64-bit offset and any signed 64-bit symbol addend.
#[derive(Clone, Copy, Debug, PartialEq, Eq, Hash)]
pub struct Note {
    pub place: usize,
    pub size: u8,
    pub target: Target,
    pub addend: i128,
}
