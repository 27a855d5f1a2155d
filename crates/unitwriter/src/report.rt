use super::scene::Scene;
use super::words::{Code, Indent, Place, Quoted, bare, coded, role};
use numbers::{Format, RunTimeEndian};
use scripts::{Kind, Opening, Payload, dwarf, kind_of, payload_of};
use sessions::{Hex, attributes, bytes_of, events};
use std::io;
use trees::{
    Attribute, AttributeValue, Counts, Event, Left, LineProgram, UnitEntryId, UnitId, UnitRecord,
};

// The name attribute.
const NAME: u16 = 3;

fn print_number(rt: &HostRuntime, kind: Kind, n: u64) -> io::Result<()> {
    let code = u16::try_from(n).ok();
    if let Some(name) = code.and_then(|code| coded(kind, code)) {
        return print!(rt; "{name}");
    }
    let what = role(kind);
    match kind {
        Kind::FileIndex | Kind::InfoRefSymbol => print!(rt; "{what}{n}"),
        Kind::Data1 | Kind::Data2 | Kind::Data4 | Kind::Data8 | Kind::Udata => print!(rt; "{n}"),
        Kind::Flag => print!(rt; "{}", if n == 1 { "yes" } else { "no" }),
        _ => print!(rt; "{what}0x{n:x}"),
    }
}

// The number and the tag of an entry.
fn print_head(
    rt: &HostRuntime,
    number: usize,
    depth: usize,
    code: u16,
    sibling: bool,
) -> io::Result<()> {
    let indent = Indent(depth);
    let tag = Code::among(&dwarf::TAGS, code);
    let mark = if sibling { "  (sibling)" } else { "" };
    println!(rt; "{number:>5}  {indent}{tag}{mark}")
}

fn print_unit(rt: &HostRuntime, unit: u32, record: UnitRecord) -> io::Result<()> {
    let version = record.encoding.version;
    let size = record.encoding.address_size;
    let bits = match record.encoding.format {
        Format::Dwarf32 => "32-bit",
        Format::Dwarf64 => "64-bit",
    };
    print!(rt; "unit {unit}: DWARF {version}, {bits}, addresses of {size} bytes, ")?;
    match record.line {
        None => println!(rt; "no line program"),
        Some(LineProgram { offset, empty }) => {
            let what = if empty {
                "an empty line program"
            } else {
                "a line program"
            };
            println!(rt; "{what} at 0x{offset:x}")
        }
    }
}

// What became of the entries.
fn print_states(rt: &HostRuntime, counts: Counts) -> io::Result<()> {
    let Counts {
        waiting,
        placed,
        taken_out,
        given_back,
    } = counts;
    let granted = waiting
        .saturating_add(placed)
        .saturating_add(taken_out)
        .saturating_add(given_back);
    print!(rt; "entries granted {granted}: placed {placed}, waiting {waiting}")?;
    println!(rt; ", taken out {taken_out}, given back {given_back}")
}

fn print_left(rt: &HostRuntime, left: Left) -> io::Result<()> {
    let Left {
        units,
        entries,
        attributes,
    } = left;
    println!(rt; "records left: units {units}, entries {entries}, attributes {attributes}")?;
    println!(rt; "")
}

fn print_title(rt: &HostRuntime, opening: &Opening) -> io::Result<()> {
    let name = opening.name.as_str();
    let order = match opening.endian {
        RunTimeEndian::Little => "little-endian",
        RunTimeEndian::Big => "big-endian",
    };
    println!(rt; "")?;
    println!(rt; "report of session {name}, {order}")?;
    println!(rt; "")
}

impl Scene<'_, '_> {
    // What a session has come to.
    pub fn report(self, opening: &Opening) -> io::Result<()> {
        print_title(self.rt, opening)?;
        let table = self.roll().table;
        // A unit's id is its number: there is no list of units to go over.
        for unit in 0..self.table().count() as u32 {
            let id = UnitId { table, unit };
            if let Some(record) = self.table().unit(id) {
                print_unit(self.rt, unit, record)?;
                self.print_tree(id)?;
                println!(self.rt; "")?;
            }
        }
        print_states(self.rt, self.table().counts())?;
        self.print_held()?;
        print_left(self.rt, self.table().left())
    }

    // The reached tree of a unit.
    fn print_tree(self, unit: UnitId) -> io::Result<()> {
        let mut depth = 0usize;
        let found = events(self.rt.alloc(), self.table(), unit)?;
        for event in found.as_slice() {
            match *event {
                Event::Enter(e) => {
                    let id = UnitEntryId {
                        table: unit.table,
                        unit: unit.unit,
                        entry: e as u32,
                    };
                    self.print_entry(id, depth)?;
                    if self.table().children(id).next().is_some() {
                        depth = depth.saturating_add(1);
                    }
                }
                Event::Leave(_) => depth = depth.saturating_sub(1),
            }
        }
        Ok(())
    }

    // An entry, and below it its attributes.
    fn print_entry(self, id: UnitEntryId, depth: usize) -> io::Result<()> {
        let Some((code, sibling)) = self.table().entry(id) else {
            return Ok(());
        };
        if let Some(name) = self.roll().name_of(id.entry as usize) {
            print_head(self.rt, name.entry, depth, code, sibling)?;
        }
        let found = attributes(self.rt.alloc(), self.table(), id)?;
        for item in found.as_slice() {
            self.print_attribute(depth, *item)?;
        }
        Ok(())
    }

    // The name and the value of an attribute.
    fn print_attribute(self, depth: usize, item: Attribute) -> io::Result<()> {
        let indent = Indent(depth);
        let name = Code::among(&dwarf::ATTRIBUTES, item.name).to_string(self.rt.alloc())?;
        print!(self.rt; "           {indent}{name:<28}  ")?;
        self.print_value(item.value)?;
        println!(self.rt; "")
    }

    // A value in the subject's words.
    fn print_value(self, value: AttributeValue) -> io::Result<()> {
        let kind = kind_of(value);
        match payload_of(value) {
            Payload::Nothing => {
                let text = bare(kind);
                print!(self.rt; "{text}")
            }
            Payload::Number(n) => print_number(self.rt, kind, n),
            Payload::Signed(n) => print!(self.rt; "{n}"),
            Payload::Pair(high, low) => print!(self.rt; "0x{high:016x}{low:016x}"),
            Payload::Symbol(symbol, plus) => print!(self.rt; "symbol {symbol} plus {plus}"),
            Payload::Bytes(_) => self.print_bytes(value),
            Payload::Entry(id) => self.print_reference(id),
        }
    }

    fn print_bytes(self, value: AttributeValue) -> io::Result<()> {
        match value {
            AttributeValue::String(span) => {
                let text = Quoted(bytes_of(self.pool, span));
                print!(self.rt; "{text}")
            }
            AttributeValue::Block(span) | AttributeValue::Exprloc(span) => {
                let bytes = Hex(bytes_of(self.pool, span));
                print!(self.rt; "{bytes}")
            }
            _ => Ok(()),
        }
    }

    // An entry that a value refers to: where it stands, its tag and its name.
    fn print_reference(self, id: UnitEntryId) -> io::Result<()> {
        if let Some(name) = self.roll().name_of(id.entry as usize) {
            let place = Place(name);
            print!(self.rt; "{place}")?;
        }
        match self.table().entry(id) {
            Some((0, _)) => print!(self.rt; ", not added"),
            Some((code, _)) => {
                let tag = Code::among(&dwarf::TAGS, code);
                print!(self.rt; ", {tag}")?;
                self.print_name(id)
            }
            None => print!(self.rt; ", given back"),
        }
    }

    // The name of an entry, if it has one.
    fn print_name(self, id: UnitEntryId) -> io::Result<()> {
        let found = attributes(self.rt.alloc(), self.table(), id)?;
        for attribute in found.as_slice().iter().filter(|it| it.name == NAME) {
            print!(self.rt; " ")?;
            self.print_bytes(attribute.value)?;
        }
        Ok(())
    }

    // The reservations that nothing has spent.
    fn print_held(self) -> io::Result<()> {
        for reservation in self.session.ledger.held.as_slice() {
            if let Some(name) = self.roll().name_of(reservation.id().entry as usize) {
                let place = Place(name);
                println!(self.rt; "still waiting: {place}")?;
            }
        }
        Ok(())
    }
}
