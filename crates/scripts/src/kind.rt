ghost use Rattle.std.specs.Prelude.{◌≡◌};
ghost use Rattle.scripts.specs.Kinds.{word_of, in_all};
ghost use Rattle.scripts.specs.declared.kind.TheConstants.{KINDS};

use texts::Word;

// What kind of value an attribute has, as a script says it.
#[derive(Clone, Copy, Debug, PartialEq, Eq)]
pub enum Kind {
    Address,
    AddressSymbol,
    Block,
    Data1,
    Data2,
    Data4,
    Data8,
    Data16,
    Sdata,
    Udata,
    ImplicitConst,
    Exprloc,
    Flag,
    FlagPresent,
    UnitRef,
    InfoRefSymbol,
    InfoRef,
    InfoRefSup,
    LineProgramRef,
    LocListRef,
    MacinfoRef,
    MacroRef,
    RangeListRef,
    TypesRef,
    StringRef,
    StrRefSup,
    LineStringRef,
    String,
    Encoding,
    DecimalSign,
    Endianity,
    Accessibility,
    Visibility,
    Virtuality,
    Language,
    AddressClass,
    IdentifierCase,
    CallingConvention,
    Inline,
    Ordering,
    FileIndexNone,
    FileIndex,
}

const KINDS: [Kind; 42] = [
    Kind::Address,
    Kind::AddressSymbol,
    Kind::Block,
    Kind::Data1,
    Kind::Data2,
    Kind::Data4,
    Kind::Data8,
    Kind::Data16,
    Kind::Sdata,
    Kind::Udata,
    Kind::ImplicitConst,
    Kind::Exprloc,
    Kind::Flag,
    Kind::FlagPresent,
    Kind::UnitRef,
    Kind::InfoRefSymbol,
    Kind::InfoRef,
    Kind::InfoRefSup,
    Kind::LineProgramRef,
    Kind::LocListRef,
    Kind::MacinfoRef,
    Kind::MacroRef,
    Kind::RangeListRef,
    Kind::TypesRef,
    Kind::StringRef,
    Kind::StrRefSup,
    Kind::LineStringRef,
    Kind::String,
    Kind::Encoding,
    Kind::DecimalSign,
    Kind::Endianity,
    Kind::Accessibility,
    Kind::Visibility,
    Kind::Virtuality,
    Kind::Language,
    Kind::AddressClass,
    Kind::IdentifierCase,
    Kind::CallingConvention,
    Kind::Inline,
    Kind::Ordering,
    Kind::FileIndexNone,
    Kind::FileIndex,
];

impl Word for Kind {
    ghost text = { word_of };

    ghost all = { KINDS };

    // A match and no table of pairs: `all` lends the kinds alone, so pairs would list them once more.
    fn word(self) -> &'static str {
        match self {
            Kind::Address => "address",
            Kind::AddressSymbol => "address_symbol",
            Kind::Block => "block",
            Kind::Data1 => "data1",
            Kind::Data2 => "data2",
            Kind::Data4 => "data4",
            Kind::Data8 => "data8",
            Kind::Data16 => "data16",
            Kind::Sdata => "sdata",
            Kind::Udata => "udata",
            Kind::ImplicitConst => "implicit_const",
            Kind::Exprloc => "exprloc",
            Kind::Flag => "flag",
            Kind::FlagPresent => "flag_present",
            Kind::UnitRef => "unit_ref",
            Kind::InfoRefSymbol => "info_ref_symbol",
            Kind::InfoRef => "info_ref",
            Kind::InfoRefSup => "info_ref_sup",
            Kind::LineProgramRef => "line_program_ref",
            Kind::LocListRef => "loc_list_ref",
            Kind::MacinfoRef => "macinfo_ref",
            Kind::MacroRef => "macro_ref",
            Kind::RangeListRef => "range_list_ref",
            Kind::TypesRef => "types_ref",
            Kind::StringRef => "string_ref",
            Kind::StrRefSup => "str_ref_sup",
            Kind::LineStringRef => "line_string_ref",
            Kind::String => "string",
            Kind::Encoding => "encoding",
            Kind::DecimalSign => "decimal_sign",
            Kind::Endianity => "endianity",
            Kind::Accessibility => "accessibility",
            Kind::Visibility => "visibility",
            Kind::Virtuality => "virtuality",
            Kind::Language => "language",
            Kind::AddressClass => "address_class",
            Kind::IdentifierCase => "identifier_case",
            Kind::CallingConvention => "calling_convention",
            Kind::Inline => "inline",
            Kind::Ordering => "ordering",
            Kind::FileIndexNone => "file_index_none",
            Kind::FileIndex => "file_index",
        }
    }

    fn all() -> &'static [Kind] {
        &KINDS
    }

    ghost complete = { in_all };
}
