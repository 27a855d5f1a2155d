#![tactic(auto)]

mod attributes;
mod calls;
mod chain;
mod counts;
pub mod cursors;
mod fault;
pub mod records;
mod reorder;
mod store;
pub mod table;
pub mod walk;

pub use cursors::{Attrs, Children};
pub use records::{
    Attribute, AttributeRecord, AttributeValue, Counts, DebugInfoRef, EditFault, Encoding,
    EntryRecord, Event, Left, LineProgram, Note, Refusal, Reservation, Span, State, UnitEntryId,
    UnitId, UnitRecord,
};
pub use table::UnitTable;
pub use walk::Walk;
