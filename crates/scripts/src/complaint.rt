ghost use Rattle.std.specs.Prelude.{◌≡◌, Some};
ghost use Rattle.scripts.specs.Complaints.{text_of};
ghost use Rattle.scripts.specs.declared.complaint.Complaint.TheVariants.{NoMemory, Word};

use std::alloc::{AllocError, AllocFailed};
use std::error::Error;
use std::fmt;
use texts::BadWord;

// What is wrong with a line.
#[derive(Clone, Copy, Debug, PartialEq, Eq)]
pub enum Complaint {
    UnknownWord,
    WordCount,
    Word(BadWord),
    UnknownValue,
    BadFormat,
    BadLineProgram,
    BadFlag,
    BadSession,
    NoSession,
    UnknownReference,
    NotHeld,
    NoMemory,
}

impl Complaint {
    // What it says.
    fn text(self) -> &'static str
        ensures { result.now ≡ text_of self }
    {
        match self {
            Complaint::UnknownWord => "unknown word",
            Complaint::WordCount => "a missing or an extra word",
            Complaint::Word(word) => word.text(),
            Complaint::UnknownValue => "unknown kind of value",
            Complaint::BadFormat => "the format is neither 32 nor 64",
            Complaint::BadLineProgram => "unknown line program",
            Complaint::BadFlag => "a flag is neither 0 nor 1",
            Complaint::BadSession => "the byte order is neither little nor big",
            Complaint::NoSession => "no session is open",
            Complaint::UnknownReference => "a value refers to an entry that is not made",
            Complaint::NotHeld => "no reservation of that entry is held",
            Complaint::NoMemory => "no memory",
        }
    }
}

impl fmt::Display for Complaint {
    ghost output = { λ c. Some (text_of c) };

    fn fmt<W: fmt::Write>(&self, f: &mut fmt::Formatter<W>) -> fmt::Result {
        f.write_str(self.text())
    }
}

impl Error for Complaint {}

impl From<AllocError> for Complaint {
    ghost from_gives = { λ _ r. r ≡ NoMemory };

    fn from(_e: AllocError) -> Complaint {
        Complaint::NoMemory
    }
}

impl<T: Drop> From<AllocFailed<T>> for Complaint {
    ghost from_gives = { λ _ r. r ≡ NoMemory };

    fn from(_e: AllocFailed<T>) -> Complaint {
        Complaint::NoMemory
    }
}

impl From<BadWord> for Complaint {
    ghost from_gives = { λ e r. r ≡ Word e };

    fn from(e: BadWord) -> Complaint {
        Complaint::Word(e)
    }
}
