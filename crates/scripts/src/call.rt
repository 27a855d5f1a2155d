use crate::value::{EntryName, Value};
use trees::{Encoding, LineProgram};

// An edit of the table, in the script's names.
#[derive(Clone, Copy, PartialEq, Eq)]
pub enum Edit {
    Unit(Encoding, Option<LineProgram>),
    Reserve(u32),
    AddReserved {
        entry: EntryName,
        parent: EntryName,
        tag: u16,
    },
    Add {
        parent: EntryName,
        tag: u16,
    },
    Set {
        entry: EntryName,
        name: u16,
        value: Value,
    },
    Delete {
        entry: EntryName,
        name: u16,
    },
    SetSibling {
        entry: EntryName,
        sibling: bool,
    },
    DeleteChild {
        parent: EntryName,
        child: EntryName,
    },
    GiveBack(EntryName),
}

// A look at an entry.
#[derive(Clone, Copy, PartialEq, Eq)]
pub enum Look {
    Attrs(EntryName),
    Children(EntryName),
    Entry(EntryName),
}

// What a line asks of the session that it stands in.
#[derive(Clone, Copy, PartialEq, Eq)]
pub enum Call {
    Edit(Edit),
    Look(Look),
}
