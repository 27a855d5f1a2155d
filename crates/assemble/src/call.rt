use numbers::{Address, Format, RunTimeEndian, SectionId};
use std::fmt;

// A call on a section's writer. Opened lengths stand apart: they make and spend tokens.
#[derive(Debug, PartialEq, Eq, Drop)]
pub enum Call {
    Bytes(Vec<u8>),
    BytesAt(usize, Vec<u8>),
    U8(u8),
    U16(u16),
    U32(u32),
    U64(u64),
    U128(u128),
    U8At(usize, u8),
    U16At(usize, u16),
    U32At(usize, u32),
    U64At(usize, u64),
    U128At(usize, u128),
    Udata(u64, u8),
    UdataAt(usize, u64, u8),
    Uleb128(u64),
    Sleb128(i64),
    Address(Address, u8),
    Offset(usize, SectionId, u8),
    OffsetAt(usize, usize, SectionId, u8),
    Reference(usize, u8),
}

// What a line asks of the section that it stands in.
#[derive(Debug, PartialEq, Eq, Drop)]
pub enum Order {
    Run(Call),
    OpenLength(Format),
    FillLength(usize, u64),
    GiveUp(usize),
}

// The writer at the bottom of a pile.
#[derive(Clone, Copy, Debug, PartialEq, Eq, Hash)]
pub enum Base {
    Slice(usize, RunTimeEndian),
    Page(RunTimeEndian),
}

// The layers over it, the innermost named first. A layer holds the writer below by value, so each pile is a type.
#[derive(Clone, Copy, Debug, PartialEq, Eq, Hash)]
pub enum Layers {
    Plain,
    Relocating,
    Quota(usize),
    RelocatingQuota(usize),
    QuotaRelocating(usize),
}

// A writer under layers.
#[derive(Clone, Copy, Debug, PartialEq, Eq, Hash)]
pub struct Pile {
    pub base: Base,
    pub layers: Layers,
}

impl fmt::Display for Base {
    fn fmt<W: fmt::Write>(&self, f: &mut fmt::Formatter<W>) -> fmt::Result {
        match *self {
            Base::Slice(size, endian) => write!(f, "slice {size} {endian}"),
            Base::Page(endian) => write!(f, "page {endian}"),
        }
    }
}

impl fmt::Display for Layers {
    fn fmt<W: fmt::Write>(&self, f: &mut fmt::Formatter<W>) -> fmt::Result {
        match *self {
            Layers::Plain => Ok(()),
            Layers::Relocating => f.write_str(" relocating"),
            Layers::Quota(limit) => write!(f, " quota {limit}"),
            Layers::RelocatingQuota(limit) => write!(f, " relocating quota {limit}"),
            Layers::QuotaRelocating(limit) => write!(f, " quota {limit} relocating"),
        }
    }
}
