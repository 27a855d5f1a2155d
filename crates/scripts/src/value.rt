ghost use Rattle.std.specs.Prelude.{◌∷◌, ◌++◌, Some};
ghost use Rattle.std.specs.Fmt.{decimal};

use std::fmt;
use trees::AttributeValue;

// An entry as a script names it: its unit, and its number in the unit.
#[derive(Clone, Copy, Debug, PartialEq, Eq)]
pub struct EntryName {
    pub unit: u32,
    pub entry: usize,
}

impl fmt::Display for EntryName {
    ghost output = { λ x. Some (decimal x.unit ++ 32 ∷ decimal x.entry) };

    fn fmt<W: fmt::Write>(&self, f: &mut fmt::Formatter<W>) -> fmt::Result {
        let EntryName { unit, entry } = *self;
        write!(f, "{unit} {entry}")
    }
}

// A value as a script gives it: one that names an entry has the script's name for it.
#[derive(Clone, Copy, PartialEq, Eq)]
pub enum Value {
    Plain(AttributeValue),
    UnitRef(EntryName),
    InfoRef(EntryName),
}
