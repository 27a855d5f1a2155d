ghost use Rattle.std.specs.Prelude.{◌≡◌};
ghost use Rattle.scripts.specs.Kinds.{kind_of};
ghost use Rattle.scripts.specs.Payloads.{payload_of};

use crate::kind::Kind;
use crate::payload::Payload;
use numbers::Address;
use trees::{AttributeValue, DebugInfoRef};

// The kind of a value.
pub fn kind_of(value: AttributeValue) -> Kind
    ensures { result ≡ kind_of value }
{
    match value {
        AttributeValue::Address(Address::Constant(_)) => Kind::Address,
        AttributeValue::Address(Address::Symbol { .. }) => Kind::AddressSymbol,
        AttributeValue::DebugInfoRef(DebugInfoRef::Symbol(_)) => Kind::InfoRefSymbol,
        AttributeValue::DebugInfoRef(DebugInfoRef::Entry(_)) => Kind::InfoRef,
        AttributeValue::FileIndex(None) => Kind::FileIndexNone,
        AttributeValue::FileIndex(Some(_)) => Kind::FileIndex,
        AttributeValue::Data16 { .. } => Kind::Data16,
        AttributeValue::Flag(_) => Kind::Flag,
        AttributeValue::Block(_) => Kind::Block,
        AttributeValue::Data1(_) => Kind::Data1,
        AttributeValue::Data2(_) => Kind::Data2,
        AttributeValue::Data4(_) => Kind::Data4,
        AttributeValue::Data8(_) => Kind::Data8,
        AttributeValue::Sdata(_) => Kind::Sdata,
        AttributeValue::Udata(_) => Kind::Udata,
        AttributeValue::ImplicitConst(_) => Kind::ImplicitConst,
        AttributeValue::Exprloc(_) => Kind::Exprloc,
        AttributeValue::FlagPresent => Kind::FlagPresent,
        AttributeValue::UnitRef(_) => Kind::UnitRef,
        AttributeValue::DebugInfoRefSup(_) => Kind::InfoRefSup,
        AttributeValue::LineProgramRef => Kind::LineProgramRef,
        AttributeValue::LocationListRef(_) => Kind::LocListRef,
        AttributeValue::DebugMacinfoRef(_) => Kind::MacinfoRef,
        AttributeValue::DebugMacroRef(_) => Kind::MacroRef,
        AttributeValue::RangeListRef(_) => Kind::RangeListRef,
        AttributeValue::DebugTypesRef(_) => Kind::TypesRef,
        AttributeValue::StringRef(_) => Kind::StringRef,
        AttributeValue::DebugStrRefSup(_) => Kind::StrRefSup,
        AttributeValue::LineStringRef(_) => Kind::LineStringRef,
        AttributeValue::String(_) => Kind::String,
        AttributeValue::Encoding(_) => Kind::Encoding,
        AttributeValue::DecimalSign(_) => Kind::DecimalSign,
        AttributeValue::Endianity(_) => Kind::Endianity,
        AttributeValue::Accessibility(_) => Kind::Accessibility,
        AttributeValue::Visibility(_) => Kind::Visibility,
        AttributeValue::Virtuality(_) => Kind::Virtuality,
        AttributeValue::Language(_) => Kind::Language,
        AttributeValue::AddressClass(_) => Kind::AddressClass,
        AttributeValue::IdentifierCase(_) => Kind::IdentifierCase,
        AttributeValue::CallingConvention(_) => Kind::CallingConvention,
        AttributeValue::Inline(_) => Kind::Inline,
        AttributeValue::Ordering(_) => Kind::Ordering,
    }
}

// What a value holds, its kind apart. Kind and payload are two sides of one value, so that neither is a `From` of it.
pub fn payload(value: AttributeValue) -> Payload
    ensures { result ≡ payload_of value }
{
    match value {
        AttributeValue::FlagPresent
        | AttributeValue::LineProgramRef
        | AttributeValue::FileIndex(None) => Payload::Nothing,
        AttributeValue::Flag(b) => Payload::Number(u64::from(b)),
        AttributeValue::Data1(n)
        | AttributeValue::Encoding(n)
        | AttributeValue::DecimalSign(n)
        | AttributeValue::Endianity(n)
        | AttributeValue::Accessibility(n)
        | AttributeValue::Visibility(n)
        | AttributeValue::Virtuality(n)
        | AttributeValue::IdentifierCase(n)
        | AttributeValue::CallingConvention(n)
        | AttributeValue::Inline(n)
        | AttributeValue::Ordering(n) => Payload::Number(u64::from(n)),
        AttributeValue::Data2(n) | AttributeValue::Language(n) => Payload::Number(u64::from(n)),
        AttributeValue::Data4(n) | AttributeValue::FileIndex(Some(n)) => {
            Payload::Number(u64::from(n))
        }
        AttributeValue::Address(Address::Constant(n))
        | AttributeValue::Data8(n)
        | AttributeValue::Udata(n)
        | AttributeValue::DebugInfoRefSup(n)
        | AttributeValue::LocationListRef(n)
        | AttributeValue::DebugMacinfoRef(n)
        | AttributeValue::DebugMacroRef(n)
        | AttributeValue::RangeListRef(n)
        | AttributeValue::DebugTypesRef(n)
        | AttributeValue::StringRef(n)
        | AttributeValue::DebugStrRefSup(n)
        | AttributeValue::LineStringRef(n)
        | AttributeValue::AddressClass(n) => Payload::Number(n),
        AttributeValue::Sdata(n) | AttributeValue::ImplicitConst(n) => Payload::Signed(n),
        AttributeValue::Data16 { high, low } => Payload::Pair(high, low),
        AttributeValue::Address(Address::Symbol { symbol, addend }) => {
            Payload::Symbol(symbol, addend)
        }
        AttributeValue::DebugInfoRef(DebugInfoRef::Symbol(symbol)) => {
            Payload::Number(symbol as u64)
        }
        AttributeValue::Block(span)
        | AttributeValue::Exprloc(span)
        | AttributeValue::String(span) => Payload::Bytes(span),
        AttributeValue::UnitRef(id) | AttributeValue::DebugInfoRef(DebugInfoRef::Entry(id)) => {
            Payload::Entry(id)
        }
    }
}
