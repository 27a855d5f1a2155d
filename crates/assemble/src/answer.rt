ghost use Rattle.std.specs.Prelude.{◌≡◌};
ghost use Rattle.assemble.specs.declared.answer.Refusal.TheVariants as refusal;

use std::fmt;
use writers::Fault;

// What a section answers to an order that it carried out.
#[derive(Clone, Copy, Debug, PartialEq, Eq)]
pub enum Answer {
    Done,
    Opened { index: usize, place: usize },
    GivenUp { place: usize },
}

// Why an order is not carried out.
#[derive(Clone, Copy, Debug, PartialEq, Eq)]
pub enum Refusal {
    Fault(Fault),
    NotOpen,
}

impl fmt::Display for Answer {
    fn fmt<W: fmt::Write>(&self, f: &mut fmt::Formatter<W>) -> fmt::Result {
        match *self {
            Answer::Done => f.write_str("ok"),
            Answer::Opened { index, place } => write!(f, "ok, opened length {index} at {place}"),
            Answer::GivenUp { place } => write!(f, "ok, gave up the length at {place}"),
        }
    }
}

impl fmt::Display for Refusal {
    fn fmt<W: fmt::Write>(&self, f: &mut fmt::Formatter<W>) -> fmt::Result {
        match *self {
            Refusal::Fault(fault) => {
                let number = fault.number();
                write!(f, "refused, fault {number}: {fault}")
            }
            Refusal::NotOpen => f.write_str("bad line: no such open length"),
        }
    }
}

impl From<Fault> for Refusal {
    ghost from_gives = { λ fault r. r ≡ refusal.Fault fault };

    fn from(fault: Fault) -> Refusal {
        Refusal::Fault(fault)
    }
}
