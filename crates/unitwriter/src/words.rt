use scripts::{EntryName, Kind, Row, dwarf, name_in};
use std::fmt;

// A code by its name, and in digits where DWARF has no name for it.
#[derive(Clone, Copy)]
pub struct Code {
    pub name: Option<&'static str>,
    pub code: u16,
}

impl fmt::Display for Code {
    fn fmt<W: fmt::Write>(&self, f: &mut fmt::Formatter<W>) -> fmt::Result {
        match self.name {
            Some(name) => f.write_str(name),
            None => {
                let code = self.code;
                write!(f, "0x{code:x}")
            }
        }
    }
}

impl Code {
    // A code among the rows of its table.
    pub fn among(rows: &[Row], code: u16) -> Code {
        Code {
            name: name_in(rows, code),
            code,
        }
    }
}

// The codes of a kind of value: none of a kind that has no codes.
fn codes(kind: Kind) -> &'static [Row] {
    match kind {
        Kind::Encoding => &dwarf::ENCODINGS,
        Kind::DecimalSign => &dwarf::DECIMAL_SIGNS,
        Kind::Endianity => &dwarf::ENDIANITIES,
        Kind::Accessibility => &dwarf::ACCESSES,
        Kind::Visibility => &dwarf::VISIBILITIES,
        Kind::Virtuality => &dwarf::VIRTUALITIES,
        Kind::Language => &dwarf::LANGUAGES,
        Kind::IdentifierCase => &dwarf::CASES,
        Kind::CallingConvention => &dwarf::CALLS,
        Kind::Inline => &dwarf::INLINES,
        Kind::Ordering => &dwarf::ORDERINGS,
        _ => &[],
    }
}

// The name of a code of a kind of value, if the kind has codes and one of them is this.
pub fn coded(kind: Kind, code: u16) -> Option<&'static str> {
    name_in(codes(kind), code)
}

// What a number is, before it, by its kind: nothing where the number says it all.
pub fn role(kind: Kind) -> &'static str {
    match kind {
        Kind::InfoRefSymbol => "symbol ",
        Kind::InfoRefSup => "supplementary entry at ",
        Kind::LocListRef => "location list at ",
        Kind::MacinfoRef => "macro information at ",
        Kind::MacroRef => "macros at ",
        Kind::RangeListRef => "range list at ",
        Kind::TypesRef => "type unit ",
        Kind::StringRef => "string at ",
        Kind::StrRefSup => "supplementary string at ",
        Kind::LineStringRef => "line string at ",
        Kind::FileIndex => "file ",
        _ => "",
    }
}

// What a value without a number is.
pub fn bare(kind: Kind) -> &'static str {
    match kind {
        Kind::FlagPresent => "yes",
        Kind::LineProgramRef => "the unit's line program",
        Kind::FileIndexNone => "no file",
        _ => "",
    }
}

// A byte of a text: as it is, or as an escape where it is a quote or not printable ASCII.
#[derive(Clone, Copy)]
struct Letter(u8);

impl fmt::Display for Letter {
    fn fmt<W: fmt::Write>(&self, f: &mut fmt::Formatter<W>) -> fmt::Result {
        let b = self.0;
        match b {
            b'"' => f.write_str("\\\""),
            b'\\' => f.write_str("\\\\"),
            0x20..=0x7e => {
                let c = b as char;
                write!(f, "{c}")
            }
            _ => write!(f, "\\x{b:02x}"),
        }
    }
}

// Text in quotes.
#[derive(Clone, Copy)]
pub struct Quoted<'a>(pub &'a [u8]);

impl fmt::Display for Quoted<'_> {
    fn fmt<W: fmt::Write>(&self, f: &mut fmt::Formatter<W>) -> fmt::Result {
        f.write_str("\"")?;
        for b in self.0 {
            let letter = Letter(*b);
            write!(f, "{letter}")?;
        }
        f.write_str("\"")
    }
}

// Where an entry stands.
#[derive(Clone, Copy)]
pub struct Place(pub EntryName);

impl fmt::Display for Place {
    fn fmt<W: fmt::Write>(&self, f: &mut fmt::Formatter<W>) -> fmt::Result {
        let EntryName { unit, entry } = self.0;
        write!(f, "unit {unit} entry {entry}")
    }
}

// Two spaces for each level: a text of that length would have to be made first.
#[derive(Clone, Copy)]
pub struct Indent(pub usize);

impl fmt::Display for Indent {
    fn fmt<W: fmt::Write>(&self, f: &mut fmt::Formatter<W>) -> fmt::Result {
        for _ in 0..self.0 {
            f.write_str("  ")?;
        }
        Ok(())
    }
}
