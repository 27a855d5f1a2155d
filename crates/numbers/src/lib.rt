#![tactic(auto)]

mod common;
mod endianity;
mod leb128;

pub use common::{Address, Format, SectionId, UnknownName};
pub use endianity::{
    BigEndian, Endianity, LittleEndian, Number, RunTimeEndian, decode, decode_u24, encode,
    encode_u24,
};
pub use leb128::{Leb128, Septets, leb128_size, worked_cases};

#[cfg(test)]
mod tests;
