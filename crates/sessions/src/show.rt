ghost use Rattle.std.specs.Prelude.{◌≡◌, ◌+◌, ◌≤◌, length};
ghost use Rattle.scripts.specs.Values.{bytes_at};

use crate::roll::Roll;
use scripts::kinds::{kind_of, payload};
use scripts::payload::Payload;
use scripts::value::EntryName;
use std::fmt;
use texts::Word;
use trees::{AttributeValue, Span, UnitEntryId};

// The bytes of a part of the pool; none of a part that does not lie in it.
pub fn bytes_of(pool: &[u8], span: Span) -> &[u8]
    ensures { span.start + span.len ≤ length pool.now → result.now ≡ bytes_at pool.now span }
{
    let rest = pool.get(span.start..).unwrap_or(&[]);
    rest.get(..span.len).unwrap_or(&[])
}

// Bytes as pairs of digits, and a dash for none.
#[derive(Clone, Copy)]
pub struct Hex<'a>(pub &'a [u8]);

impl fmt::Display for Hex<'_> {
    fn fmt<W: fmt::Write>(&self, f: &mut fmt::Formatter<W>) -> fmt::Result {
        if self.0.is_empty() {
            return f.write_str("-");
        }
        for b in self.0 {
            write!(f, "{b:02x}")?;
        }
        Ok(())
    }
}

// An entry in the script's names.
#[derive(Clone, Copy)]
pub struct NameOf<'a> {
    pub id: UnitEntryId,
    pub roll: Roll<'a>,
}

impl fmt::Display for NameOf<'_> {
    fn fmt<W: fmt::Write>(&self, f: &mut fmt::Formatter<W>) -> fmt::Result {
        match self.roll.name_of(self.id.entry as usize) {
            Some(name) => {
                let unit = self.id.unit;
                write!(f, "{}", EntryName { unit, ..name })
            }
            None => {
                let unit = self.id.unit;
                write!(f, "{unit} -")
            }
        }
    }
}

// A value as a script says it.
#[derive(Clone, Copy)]
pub struct Said<'p, 'h> {
    pub value: AttributeValue,
    pub pool: &'p [u8],
    pub roll: Roll<'h>,
}

impl fmt::Display for Said<'_, '_> {
    fn fmt<W: fmt::Write>(&self, f: &mut fmt::Formatter<W>) -> fmt::Result {
        f.write_str(kind_of(self.value).word())?;
        match payload(self.value) {
            Payload::Nothing => Ok(()),
            Payload::Number(n) => write!(f, " {n}"),
            Payload::Signed(n) => write!(f, " {n}"),
            Payload::Pair(high, low) => write!(f, " {high} {low}"),
            Payload::Symbol(symbol, addend) => write!(f, " {symbol} {addend}"),
            Payload::Bytes(span) => {
                let bytes = Hex(bytes_of(self.pool, span));
                write!(f, " {bytes}")
            }
            Payload::Entry(id) => {
                let roll = self.roll;
                let name = NameOf { id, roll };
                write!(f, " {name}")
            }
        }
    }
}
