ghost use Rattle.std.specs.Prelude.{◌≡◌, Some};
ghost use Rattle.sections.specs.Faults.{number_of, text_of};

use std::fmt;

// Why a section's writer declines a call.
#[derive(Clone, Copy, Debug, PartialEq, Eq, Hash)]
pub enum Fault {
    UnsupportedWordSize(u8),
    ValueTooLarge,
    InvalidReference,
    InvalidAddress,
    OffsetOutOfBounds,
    LengthOutOfBounds,
    SectionFull,
    NotesFull,
}

impl Fault {
    // The number of a fault. One fault has a size beside it, so no cast gives its number.
    pub fn number(self) -> u8
        ensures { result ≡ number_of self }
    {
        match self {
            Fault::UnsupportedWordSize(_) => 2,
            Fault::ValueTooLarge => 3,
            Fault::InvalidReference => 5,
            Fault::InvalidAddress => 6,
            Fault::OffsetOutOfBounds => 7,
            Fault::LengthOutOfBounds => 8,
            Fault::SectionFull => 17,
            Fault::NotesFull => 18,
        }
    }
}

// What it says.
impl fmt::Display for Fault {
    ghost output = { λ f. Some (text_of f) };

    fn fmt<W: fmt::Write>(&self, f: &mut fmt::Formatter<W>) -> fmt::Result {
        match self {
            Fault::UnsupportedWordSize(_) => f.write_str("a word of this size is not supported"),
            Fault::ValueTooLarge => f.write_str("the value is too large for its size"),
            Fault::InvalidReference => f.write_str("the reference is not valid"),
            Fault::InvalidAddress => f.write_str("the address is not valid"),
            Fault::OffsetOutOfBounds => f.write_str("the offset is past the end of the section"),
            Fault::LengthOutOfBounds => f.write_str("the bytes would pass the end of the section"),
            Fault::SectionFull => f.write_str("the section is full"),
            Fault::NotesFull => f.write_str("no note is left"),
        }
    }
}
