use numbers::{Address, Format};
use trees::{
    Attribute, AttributeRecord, AttributeValue, Encoding, EntryRecord, Note, State, UnitEntryId,
    UnitId, UnitRecord,
};

pub const TABLE: u32 = 7;

pub const DW_TAG_VARIABLE: u16 = 0x34;

pub const DW_AT_NAME: u16 = 0x03;

pub const DW_AT_BYTE_SIZE: u16 = 0x0b;

pub const ENCODING: Encoding = Encoding {
    version: 5,
    format: Format::Dwarf32,
    address_size: 4,
};

// Lent memory may hold anything at first: these records name what is not there.
pub const UNIT: UnitRecord = UnitRecord {
    encoding: ENCODING,
    line: None,
    root: 9,
    written: true,
};

pub const ENTRY: EntryRecord = EntryRecord {
    unit: 9,
    state: State::Placed,
    tag: 9,
    sibling: true,
    parent: 0,
    first: 0,
    last: 0,
    next: 0,
    attribute: 0,
    note: Note { offset: 9, code: 9 },
};

pub const ATTRIBUTE: AttributeRecord = AttributeRecord {
    attribute: Attribute {
        name: 9,
        value: AttributeValue::Address(Address::Constant(9)),
    },
    owner: 0,
    next: 0,
};

// A unit of the table.
pub fn unit(unit: u32) -> UnitId {
    UnitId { table: TABLE, unit }
}

// An entry of the first unit.
pub fn entry(entry: u32) -> UnitEntryId {
    UnitEntryId {
        table: TABLE,
        unit: 0,
        entry,
    }
}
