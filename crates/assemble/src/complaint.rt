ghost use Rattle.std.specs.Prelude.{◌≡◌};
ghost use Rattle.assemble.specs.declared.complaint.Complaint.TheVariants.{NoMemory, Word};

use std::alloc::AllocError;
use std::fmt;
use texts::BadWord;

// What is wrong with a line.
#[derive(Clone, Copy, Debug, PartialEq, Eq, Hash)]
pub enum Complaint {
    UnknownWord,
    WordCount,
    Word(BadWord),
    UnknownSection,
    BadPile,
    TooMuchMemory,
    NoPile,
    NoMemory,
}

impl fmt::Display for Complaint {
    fn fmt<W: fmt::Write>(&self, f: &mut fmt::Formatter<W>) -> fmt::Result {
        f.write_str(match *self {
            Complaint::UnknownWord => "unknown word",
            Complaint::WordCount => "a missing or an extra token",
            Complaint::Word(word) => word.text(),
            Complaint::UnknownSection => "unknown section",
            Complaint::BadPile => "unknown pile",
            Complaint::TooMuchMemory => "more than 65536 bytes of memory",
            Complaint::NoPile => "a call before any pile",
            Complaint::NoMemory => "no memory",
        })
    }
}

impl From<BadWord> for Complaint {
    ghost from_gives = { λ e r. r ≡ Word e };

    fn from(e: BadWord) -> Complaint {
        Complaint::Word(e)
    }
}

impl From<AllocError> for Complaint {
    ghost from_gives = { λ _ r. r ≡ NoMemory };

    fn from(_e: AllocError) -> Complaint {
        Complaint::NoMemory
    }
}
