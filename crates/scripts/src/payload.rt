use trees::{Span, UnitEntryId};

// What a value holds.
#[derive(Clone, Copy, Debug, PartialEq, Eq)]
pub enum Payload {
    // One case as the others: a payload is there of each value.
    Nothing,
    Number(u64),
    Signed(i64),
    Pair(u64, u64),
    Symbol(usize, i64),
    Bytes(Span),
    Entry(UnitEntryId),
}
