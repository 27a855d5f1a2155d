ghost use Rattle.std.specs.Prelude.{◌≡◌, Some};
ghost use Rattle.texts.specs.Words.{text_of};
ghost use Rattle.texts.specs.declared.bad_word.BadWord.TheVariants.{NoMemory};

use std::alloc::{AllocError, AllocFailed};
use std::error::Error;
use std::fmt;

// Why a word is not what it should be.
#[derive(Clone, Copy, Debug, PartialEq, Eq, Hash)]
pub enum BadWord {
    NotANumber,
    OutOfRange,
    NotBytes,
    NoMemory,
}

impl BadWord {
    // What it says.
    pub fn text(self) -> &'static str
        ensures { result.now ≡ text_of self }
    {
        match self {
            BadWord::NotANumber => "not a number of at most 64 bits",
            BadWord::OutOfRange => "number out of range",
            BadWord::NotBytes => "not pairs of lower-case hex digits",
            BadWord::NoMemory => "no memory",
        }
    }
}

impl fmt::Display for BadWord {
    ghost output = { λ w. Some (text_of w) };

    fn fmt<W: fmt::Write>(&self, f: &mut fmt::Formatter<W>) -> fmt::Result {
        f.write_str(self.text())
    }
}

impl Error for BadWord {}

impl From<AllocError> for BadWord {
    ghost from_gives = { λ _ r. r ≡ NoMemory };

    fn from(_e: AllocError) -> BadWord {
        BadWord::NoMemory
    }
}

impl<T: Drop> From<AllocFailed<T>> for BadWord {
    ghost from_gives = { λ _ r. r ≡ NoMemory };

    fn from(_e: AllocFailed<T>) -> BadWord {
        BadWord::NoMemory
    }
}
