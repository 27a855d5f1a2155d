use trees::{
    AttributeValue, EditFault, Encoding, LineProgram, Refusal, Reservation, UnitEntryId, UnitId,
};

// An edit in the table's own ids. A reservation that it spends is part of it.
pub enum Order {
    Unit(Encoding, Option<LineProgram>),
    Reserve(UnitId),
    AddReserved(Reservation, UnitEntryId, u16),
    Add(UnitEntryId, u16),
    Set(UnitEntryId, u16, AttributeValue),
    Delete(UnitEntryId, u16),
    SetSibling(UnitEntryId, bool),
    DeleteChild(UnitEntryId, UnitEntryId),
    GiveBack(Reservation),
}

// What the table answers to an order: just what its call returns, so that a history of calls can say it.
pub enum Answer {
    Unit(Result<UnitId, EditFault>),
    Reserved(Result<(UnitEntryId, Reservation), EditFault>),
    ReservedAdded(Result<(), Refusal>),
    Added(Result<UnitEntryId, EditFault>),
    GaveBack(bool),
    ChildDeleted(Result<bool, EditFault>),
    Edited(Result<(), EditFault>),
}
