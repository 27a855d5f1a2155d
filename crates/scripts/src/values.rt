ghost use Rattle.std.specs.Prelude.{◌≡◌, ℕ, false, List, [], ◌∷◌, ◌++◌, IfOk, IfErr, MatchResult, Some};
ghost use Rattle.scripts.specs.Complaints.{NoFlag, NoEntryName, NoValue};
ghost use Rattle.texts.specs.Texts.{number_of, bytes_named};
ghost use Rattle.scripts.specs.declared.kind.Kind.TheVariants.{Block as BlockKind};
ghost use Rattle.scripts.specs.Kinds.{kind_of, is_bytes};
ghost use Rattle.scripts.specs.Values.{bit, bytes_at, PlainFrom, value_kind, ValueFrom, texts_of};

use crate::complaint::Complaint;
use crate::kind::Kind;
use crate::value::{EntryName, Value};
use numbers::Address;
use std::alloc::Global;
use texts::{bytes, number, whole};
use trees::{AttributeValue, DebugInfoRef, Span};

// A flag, 0 or 1.
pub fn flag(text: &str) -> Result<bool, Complaint>
    ensures { MatchResult result (λ b. number_of text.now ≡ Some (bit b)) (NoFlag (number_of text.now)) }
{
    match number::<u64>(text)? {
        0 => Ok(false),
        1 => Ok(true),
        _ => Err(Complaint::BadFlag),
    }
}

// Puts the bytes that a text says at the end of the pool. The pool is the caller's own, one for all lines, and is
// only lent: that it grows at its end stands in each contract, and a type around it would be taken apart again.
fn pooled(heap: Global, pool: &mut Vec<u8>, text: &str) -> Result<Span, Complaint>
    ensures grows { (xs : List ℕ) × (pool.new.items ≡ pool.old.items ++ xs) }
    ensures bytes { IfOk result (λ s. bytes_named text.now ≡ Some (bytes_at pool.new.items s)) }
    ensures refuses { IfErr result (λ e. NoValue BlockKind (text.now ∷ []) e) }
{
    let start = pool.len();
    let read = bytes(heap, text)?;
    pool.extend_from_slice(read.as_slice())?;
    Ok(Span {
        start,
        len: read.len(),
    })
}

// A value of one word that is no bytes.
fn one_value(kind: Kind, a: &str) -> Result<AttributeValue, Complaint>
    ensures kind { IfOk result (λ v. kind_of v ≡ kind) }
    ensures reads { (pool : List ℕ) → IfOk result (λ v. PlainFrom v (a.now ∷ []) pool) }
    ensures refuses { is_bytes kind ≡ false → IfErr result (λ e. NoValue kind (a.now ∷ []) e) }
{
    match kind {
        Kind::Address => Ok(AttributeValue::Address(Address::Constant(number(a)?))),
        Kind::Data1 => Ok(AttributeValue::Data1(number(a)?)),
        Kind::Data2 => Ok(AttributeValue::Data2(number(a)?)),
        Kind::Data4 => Ok(AttributeValue::Data4(number(a)?)),
        Kind::Data8 => Ok(AttributeValue::Data8(number(a)?)),
        Kind::Sdata => Ok(AttributeValue::Sdata(whole(a)?)),
        Kind::Udata => Ok(AttributeValue::Udata(number(a)?)),
        Kind::ImplicitConst => Ok(AttributeValue::ImplicitConst(whole(a)?)),
        Kind::Flag => Ok(AttributeValue::Flag(flag(a)?)),
        Kind::InfoRefSymbol => Ok(AttributeValue::DebugInfoRef(DebugInfoRef::Symbol(number(a)?))),
        Kind::InfoRefSup => Ok(AttributeValue::DebugInfoRefSup(number(a)?)),
        Kind::LocListRef => Ok(AttributeValue::LocationListRef(number(a)?)),
        Kind::MacinfoRef => Ok(AttributeValue::DebugMacinfoRef(number(a)?)),
        Kind::MacroRef => Ok(AttributeValue::DebugMacroRef(number(a)?)),
        Kind::RangeListRef => Ok(AttributeValue::RangeListRef(number(a)?)),
        Kind::TypesRef => Ok(AttributeValue::DebugTypesRef(number(a)?)),
        Kind::StringRef => Ok(AttributeValue::StringRef(number(a)?)),
        Kind::StrRefSup => Ok(AttributeValue::DebugStrRefSup(number(a)?)),
        Kind::LineStringRef => Ok(AttributeValue::LineStringRef(number(a)?)),
        Kind::Encoding => Ok(AttributeValue::Encoding(number(a)?)),
        Kind::DecimalSign => Ok(AttributeValue::DecimalSign(number(a)?)),
        Kind::Endianity => Ok(AttributeValue::Endianity(number(a)?)),
        Kind::Accessibility => Ok(AttributeValue::Accessibility(number(a)?)),
        Kind::Visibility => Ok(AttributeValue::Visibility(number(a)?)),
        Kind::Virtuality => Ok(AttributeValue::Virtuality(number(a)?)),
        Kind::Language => Ok(AttributeValue::Language(number(a)?)),
        Kind::AddressClass => Ok(AttributeValue::AddressClass(number(a)?)),
        Kind::IdentifierCase => Ok(AttributeValue::IdentifierCase(number(a)?)),
        Kind::CallingConvention => Ok(AttributeValue::CallingConvention(number(a)?)),
        Kind::Inline => Ok(AttributeValue::Inline(number(a)?)),
        Kind::Ordering => Ok(AttributeValue::Ordering(number(a)?)),
        Kind::FileIndex => Ok(AttributeValue::FileIndex(Some(number(a)?))),
        _ => Err(Complaint::WordCount),
    }
}

// A value without words.
fn bare_value(kind: Kind) -> Result<Value, Complaint>
    ensures kind { IfOk result (λ v. value_kind v ≡ kind) }
    ensures reads { (pool : List ℕ) → IfOk result (λ v. ValueFrom v [] pool) }
    ensures refuses { IfErr result (λ e. NoValue kind [] e) }
{
    match kind {
        Kind::FlagPresent => Ok(Value::Plain(AttributeValue::FlagPresent)),
        Kind::LineProgramRef => Ok(Value::Plain(AttributeValue::LineProgramRef)),
        Kind::FileIndexNone => Ok(Value::Plain(AttributeValue::FileIndex(None))),
        _ => Err(Complaint::WordCount),
    }
}

// A value of one word, whose bytes, if it is bytes, go to the pool.
fn word_value(heap: Global, pool: &mut Vec<u8>, kind: Kind, a: &str) -> Result<Value, Complaint>
    ensures kind { IfOk result (λ v. value_kind v ≡ kind) }
    ensures reads { IfOk result (λ v. ValueFrom v (a.now ∷ []) pool.new.items) }
    ensures grows { (xs : List ℕ) × (pool.new.items ≡ pool.old.items ++ xs) }
    ensures refuses { IfErr result (λ e. NoValue kind (a.now ∷ []) e) }
{
    match kind {
        Kind::Block => Ok(Value::Plain(AttributeValue::Block(pooled(heap, pool, a)?))),
        Kind::Exprloc => Ok(Value::Plain(AttributeValue::Exprloc(pooled(heap, pool, a)?))),
        Kind::String => Ok(Value::Plain(AttributeValue::String(pooled(heap, pool, a)?))),
        _ => Ok(Value::Plain(one_value(kind, a)?)),
    }
}

// An entry, by its unit and its number in the unit.
pub fn entry_name(unit: &str, entry: &str) -> Result<EntryName, Complaint>
    ensures { MatchResult result (λ x. (number_of unit.now ≡ Some x.unit) × (number_of entry.now ≡ Some x.entry)) (NoEntryName (number_of unit.now) (number_of entry.now)) }
{
    Ok(EntryName {
        unit: number(unit)?,
        entry: number(entry)?,
    })
}

// A value of two words.
fn pair_value(kind: Kind, a: &str, b: &str) -> Result<Value, Complaint>
    ensures kind { IfOk result (λ v. value_kind v ≡ kind) }
    ensures reads { (pool : List ℕ) → IfOk result (λ v. ValueFrom v (a.now ∷ b.now ∷ []) pool) }
    ensures refuses { IfErr result (λ e. NoValue kind (a.now ∷ b.now ∷ []) e) }
{
    match kind {
        Kind::AddressSymbol => Ok(Value::Plain(AttributeValue::Address(Address::Symbol {
            symbol: number(a)?,
            addend: whole(b)?,
        }))),
        Kind::Data16 => Ok(Value::Plain(AttributeValue::Data16 {
            high: number(a)?,
            low: number(b)?,
        })),
        Kind::UnitRef => Ok(Value::UnitRef(entry_name(a, b)?)),
        Kind::InfoRef => Ok(Value::InfoRef(entry_name(a, b)?)),
        _ => Err(Complaint::WordCount),
    }
}

// A value of a kind, by the words after the kind's own.
#[tactic(auto, using(crate::proofs::Words::length_texts, crate::proofs::Words::few))]
pub fn kind_value(
    heap: Global,
    pool: &mut Vec<u8>,
    kind: Kind,
    words: &[&str],
) -> Result<Value, Complaint>
    ensures kind { IfOk result (λ v. value_kind v ≡ kind) }
    ensures reads { IfOk result (λ v. ValueFrom v (texts_of words.now) pool.new.items) }
    ensures grows { (xs : List ℕ) × (pool.new.items ≡ pool.old.items ++ xs) }
    ensures refuses { IfErr result (λ e. NoValue kind (texts_of words.now) e) }
{
    match words {
        [] => bare_value(kind),
        [a] => word_value(heap, pool, kind, a),
        [a, b] => pair_value(kind, a, b),
        _ => Err(Complaint::WordCount),
    }
}
