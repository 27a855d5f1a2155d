ghost use Rattle.std.specs.Prelude.{◌≡◌};
ghost use Rattle.assemble.specs.declared.verb.TheConstants.{VERBS};
ghost use Rattle.assemble.specs.Verbs.{word_of, each_verb_stands};

use texts::Word;

// The word that says what a line of a section asks.
#[derive(Clone, Copy, Debug, PartialEq, Eq)]
pub enum Verb {
    Bytes,
    BytesAt,
    U8,
    U16,
    U32,
    U64,
    U128,
    U8At,
    U16At,
    U32At,
    U64At,
    U128At,
    Udata,
    UdataAt,
    Uleb128,
    Sleb128,
    Address,
    AddressSymbol,
    Offset,
    OffsetAt,
    Reference,
    OpenLength,
    FillLength,
    GiveUp,
}

const VERBS: [Verb; 24] = [
    Verb::Bytes,
    Verb::BytesAt,
    Verb::U8,
    Verb::U16,
    Verb::U32,
    Verb::U64,
    Verb::U128,
    Verb::U8At,
    Verb::U16At,
    Verb::U32At,
    Verb::U64At,
    Verb::U128At,
    Verb::Udata,
    Verb::UdataAt,
    Verb::Uleb128,
    Verb::Sleb128,
    Verb::Address,
    Verb::AddressSymbol,
    Verb::Offset,
    Verb::OffsetAt,
    Verb::Reference,
    Verb::OpenLength,
    Verb::FillLength,
    Verb::GiveUp,
];

impl Word for Verb {
    ghost text = { word_of };

    ghost all = { VERBS };

    ghost complete = { each_verb_stands };

    fn all() -> &'static [Verb] {
        &VERBS
    }

    fn word(self) -> &'static str {
        match self {
            Verb::Bytes => "bytes",
            Verb::BytesAt => "bytes_at",
            Verb::U8 => "u8",
            Verb::U16 => "u16",
            Verb::U32 => "u32",
            Verb::U64 => "u64",
            Verb::U128 => "u128",
            Verb::U8At => "u8_at",
            Verb::U16At => "u16_at",
            Verb::U32At => "u32_at",
            Verb::U64At => "u64_at",
            Verb::U128At => "u128_at",
            Verb::Udata => "udata",
            Verb::UdataAt => "udata_at",
            Verb::Uleb128 => "uleb128",
            Verb::Sleb128 => "sleb128",
            Verb::Address => "address",
            Verb::AddressSymbol => "address_symbol",
            Verb::Offset => "offset",
            Verb::OffsetAt => "offset_at",
            Verb::Reference => "reference",
            Verb::OpenLength => "open_length",
            Verb::FillLength => "fill_length",
            Verb::GiveUp => "give_up",
        }
    }
}
