ghost use Rattle.std.specs.Prelude.{length};
ghost use Rattle.trees.specs.Sound.{Sound};

use numbers::{Address, Format};

// A unit of a table: the table's number, which its caller chose, and the unit's place.
#[derive(Clone, Copy, Debug, PartialEq, Eq, Hash)]
pub struct UnitId {
    pub table: u32,
    pub unit: u32,
}

// An entry of a unit of a table.
#[derive(Clone, Copy, Debug, PartialEq, Eq, Hash)]
pub struct UnitEntryId {
    pub table: u32,
    pub unit: u32,
    pub entry: u32,
}

// The right and the duty to add a reserved entry: it can be neither copied nor dropped.
pub struct Reservation {
    pub id: UnitEntryId,
}

// A part of the byte pool.
#[derive(Clone, Copy, Debug, PartialEq, Eq, Hash)]
pub struct Span {
    pub start: usize,
    pub len: usize,
}

// What a reference into .debug_info names.
#[derive(Clone, Copy, Debug, PartialEq, Eq, Hash)]
pub enum DebugInfoRef {
    Symbol(usize),
    Entry(UnitEntryId),
}

// The value of an attribute.
#[derive(Clone, Copy, Debug, PartialEq, Eq, Hash)]
pub enum AttributeValue {
    Address(Address),
    Block(Span),
    Data1(u8),
    Data2(u16),
    Data4(u32),
    Data8(u64),
    Data16 { high: u64, low: u64 },
    Sdata(i64),
    Udata(u64),
    ImplicitConst(i64),
    Exprloc(Span),
    Flag(bool),
    FlagPresent,
    UnitRef(UnitEntryId),
    DebugInfoRef(DebugInfoRef),
    DebugInfoRefSup(u64),
    LineProgramRef,
    LocationListRef(u64),
    DebugMacinfoRef(u64),
    DebugMacroRef(u64),
    RangeListRef(u64),
    DebugTypesRef(u64),
    StringRef(u64),
    DebugStrRefSup(u64),
    LineStringRef(u64),
    String(Span),
    Encoding(u8),
    DecimalSign(u8),
    Endianity(u8),
    Accessibility(u8),
    Visibility(u8),
    Virtuality(u8),
    Language(u16),
    AddressClass(u64),
    IdentifierCase(u8),
    CallingConvention(u8),
    Inline(u8),
    Ordering(u8),
    FileIndex(Option<u32>),
}

// A name and its value.
#[derive(Clone, Copy, Debug, PartialEq, Eq, Hash)]
pub struct Attribute {
    pub name: u16,
    pub value: AttributeValue,
}

// What fixes the layout of a unit's numbers.
#[derive(Clone, Copy, Debug, PartialEq, Eq, Hash)]
pub struct Encoding {
    pub version: u16,
    pub format: Format,
    pub address_size: u8,
}

// A unit's line program, which the caller writes at an offset.
#[derive(Clone, Copy, Debug, PartialEq, Eq, Hash)]
pub struct LineProgram {
    pub offset: u64,
    pub empty: bool,
}

// What became of an entry. A root is of none of the four states of a reserved one.
#[derive(Clone, Copy, Debug, PartialEq, Eq, Hash)]
pub enum State {
    Root,
    Waiting,
    Placed,
    TakenOut,
    GivenBack,
}

// Why an edit was declined, with the number that a program gives it.
#[derive(Clone, Copy, Debug, PartialEq, Eq, Hash)]
pub enum EditFault {
    SiblingName = 9,
    SpanOutOfBounds = 10,
    UnknownId = 11,
    NotWaiting = 12,
    UnitWritten = 13,
    SessionClosed = 14,
    TableFull = 15,
}

// A declined `add_reserved`: why, and the reservation, which is still to be spent.
pub struct Refusal {
    pub fault: EditFault,
    pub reservation: Reservation,
}

// How many entries are in each state; a root is in none.
#[derive(Clone, Copy, Debug, Default, PartialEq, Eq, Hash)]
pub struct Counts {
    pub waiting: usize,
    pub placed: usize,
    pub taken_out: usize,
    pub given_back: usize,
}

// How many records of each kind are left.
#[derive(Clone, Copy, Debug, PartialEq, Eq, Hash)]
pub struct Left {
    pub units: usize,
    pub entries: usize,
    pub attributes: usize,
}

// A step of the walk through a tree: into an entry, or out of one that has children.
#[derive(Clone, Copy, Debug, PartialEq, Eq, Hash)]
pub enum Event {
    Enter(u16),
    Leave(u16),
}

// No record: the end of a list. An `Option` of a link is twice as long, and the records are the caller's memory.
pub const NIL: u16 = 0xffff;

#[derive(Clone, Copy, Debug, PartialEq, Eq, Hash)]
pub struct UnitRecord {
    pub encoding: Encoding,
    pub line: Option<LineProgram>,
    pub root: u16,
    pub written: bool,
}

// Where a write put an entry's code down, and which code: 0, which is no code in DWARF, before its first.
#[derive(Clone, Copy, Debug, PartialEq, Eq, Hash)]
pub struct Note {
    pub offset: u64,
    pub code: u32,
}

// An entry's record: `first` and `last` begin and end the list of its children, which goes on by
// their `next`; `attribute` begins the list of its attributes. Only a placed entry has a parent.
#[derive(Clone, Copy, Debug, PartialEq, Eq, Hash)]
pub struct EntryRecord {
    pub unit: u16,
    pub state: State,
    pub tag: u16,
    pub sibling: bool,
    pub parent: u16,
    pub first: u16,
    pub last: u16,
    pub next: u16,
    pub attribute: u16,
    pub note: Note,
}

// An attribute's record: the entry that has it, or NIL where the record is free.
#[derive(Clone, Copy, Debug, PartialEq, Eq, Hash)]
pub struct AttributeRecord {
    pub attribute: Attribute,
    pub owner: u16,
    pub next: u16,
}

// The memory that a table works in, and how much of it has been in use: its lists are sound
// wherever a step begins or ends.
#[derive(Drop)]
pub struct Records<'a> {
    pub units: &'a mut [UnitRecord],
    pub entries: &'a mut [EntryRecord],
    pub attributes: &'a mut [AttributeRecord],
    pub pool: &'a [u8],
    pub number: u32,
    pub closed: bool,
    pub unit_count: usize,
    pub entry_count: usize,
    pub attribute_count: usize,
    pub free: u16,
    ghost sound: { Sound units.now unit_count entries.now entry_count attributes.now attribute_count free (length pool.now) },
}
