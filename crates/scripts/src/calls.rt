ghost use Rattle.std.specs.Prelude.{◌≡◌, ◌≢◌, ℕ, List, [], ◌∷◌, ◌++◌, IfOk, IfErr, Some};
ghost use Rattle.texts.specs.Texts.{number_of};
ghost use Rattle.scripts.specs.declared.verb.Verb.TheVariants.{Unit as UnitVerb, Set as SetVerb};
ghost use Rattle.scripts.specs.Verbs.{word_of};
ghost use Rattle.scripts.specs.Values.{texts_of};
ghost use Rattle.scripts.specs.Complaints.{NoCall, NoEncoding, NoOffset, NotRead};
ghost use Rattle.scripts.specs.Calls.{call_verb, EncodingFrom, LineFrom, CallFrom};

use crate::call::{Call, Edit, Look};
use crate::complaint::Complaint;
use crate::kind::Kind;
use crate::values::{entry_name, flag, kind_value};
use crate::verb::Verb;
use std::alloc::Global;
use texts::{named, number};
use trees::{Encoding, LineProgram};

// What fixes the layout of a unit's numbers.
fn encoding(version: &str, bits: &str, size: &str) -> Result<Encoding, Complaint>
    ensures reads { IfOk result (λ x. EncodingFrom x (version.now ∷ bits.now ∷ size.now ∷ [])) }
    ensures refuses { IfErr result (λ e. NoEncoding (version.now ∷ bits.now ∷ size.now ∷ []) e) }
{
    Ok(Encoding {
        version: number(version)?,
        format: bits.parse().map_err(|_| Complaint::BadFormat)?,
        address_size: number(size)?,
    })
}

// A line program that is there.
fn line_program(how: &str, offset: &str) -> Result<LineProgram, Complaint>
    ensures reads { IfOk result (λ x. LineFrom (Some x) (how.now ∷ offset.now ∷ [])) }
    ensures refuses { IfErr result (λ e. NoOffset how.now offset.now e) }
{
    let empty = match how {
        "empty" => true,
        "full" => false,
        _ => return Err(Complaint::BadLineProgram),
    };
    Ok(LineProgram {
        offset: number(offset)?,
        empty,
    })
}

// A call of two words. The entry is read first, so that a bad number is told before a wrong count.
fn two_words(verb: Verb, unit: &str, entry: &str) -> Result<Call, Complaint>
    ensures verb { IfOk result (λ x. call_verb x ≡ verb) }
    ensures reads { (pool : List ℕ) → IfOk result (λ x. CallFrom x (unit.now ∷ entry.now ∷ []) pool) }
    ensures refuses { IfErr result (λ e. NoCall verb (unit.now ∷ entry.now ∷ []) e) }
{
    let entry = entry_name(unit, entry)?;
    match verb {
        Verb::GiveBack => Ok(Call::Edit(Edit::GiveBack(entry))),
        Verb::Attrs => Ok(Call::Look(Look::Attrs(entry))),
        Verb::Children => Ok(Call::Look(Look::Children(entry))),
        Verb::Entry => Ok(Call::Look(Look::Entry(entry))),
        _ => Err(Complaint::WordCount),
    }
}

// A call of three words, in the same order.
fn three_words(verb: Verb, unit: &str, entry: &str, last: &str) -> Result<Call, Complaint>
    ensures verb { IfOk result (λ x. call_verb x ≡ verb) }
    ensures reads { (pool : List ℕ) → IfOk result (λ x. CallFrom x (unit.now ∷ entry.now ∷ last.now ∷ []) pool) }
    ensures refuses { IfErr result (λ e. NoCall verb (unit.now ∷ entry.now ∷ last.now ∷ []) e) }
{
    let entry = entry_name(unit, entry)?;
    match verb {
        Verb::Add => Ok(Call::Edit(Edit::Add {
            parent: entry,
            tag: number(last)?,
        })),
        Verb::Delete => Ok(Call::Edit(Edit::Delete {
            entry,
            name: number(last)?,
        })),
        Verb::SetSibling => Ok(Call::Edit(Edit::SetSibling {
            entry,
            sibling: flag(last)?,
        })),
        Verb::DeleteChild => Ok(Call::Edit(Edit::DeleteChild {
            parent: entry,
            child: entry_name(unit, last)?,
        })),
        _ => Err(Complaint::WordCount),
    }
}

// A call of a fixed number of words.
#[tactic(auto, using(crate::proofs::Words::length_texts))]
fn plain_call(verb: Verb, words: &[&str]) -> Result<Call, Complaint>
    ensures verb { IfOk result (λ x. call_verb x ≡ verb) }
    ensures reads { (pool : List ℕ) → IfOk result (λ x. CallFrom x (texts_of words.now) pool) }
    ensures refuses { verb ≢ UnitVerb → verb ≢ SetVerb → IfErr result (λ e. NoCall verb (texts_of words.now) e) }
{
    match (words, verb) {
        ([unit], Verb::Reserve) => Ok(Call::Edit(Edit::Reserve(number(unit)?))),
        ([unit, entry], _) => two_words(verb, unit, entry),
        ([unit, entry, last], _) => three_words(verb, unit, entry, last),
        ([unit, entry, parent, tag], Verb::AddReserved) => Ok(Call::Edit(Edit::AddReserved {
            entry: entry_name(unit, entry)?,
            parent: entry_name(unit, parent)?,
            tag: number(tag)?,
        })),
        _ => Err(Complaint::WordCount),
    }
}

// A new unit.
#[tactic(auto, using(crate::proofs::Words::length_texts))]
fn unit_call(words: &[&str]) -> Result<Call, Complaint>
    ensures verb { IfOk result (λ x. call_verb x ≡ UnitVerb) }
    ensures reads { (pool : List ℕ) → IfOk result (λ x. CallFrom x (texts_of words.now) pool) }
    ensures refuses { IfErr result (λ e. NoCall UnitVerb (texts_of words.now) e) }
{
    match words {
        [version, bits, size, "none"] => {
            Ok(Call::Edit(Edit::Unit(encoding(version, bits, size)?, None)))
        }
        [_, _, _, _] => Err(Complaint::BadLineProgram),
        [version, bits, size, how, offset] => Ok(Call::Edit(Edit::Unit(
            encoding(version, bits, size)?,
            Some(line_program(how, offset)?),
        ))),
        _ => Err(Complaint::WordCount),
    }
}

// A value for an attribute.
#[tactic(auto, using(crate::proofs::Words::length_texts, crate::proofs::Words::text_at))]
fn set_call(heap: Global, pool: &mut Vec<u8>, words: &[&str]) -> Result<Call, Complaint>
    ensures verb { IfOk result (λ x. call_verb x ≡ SetVerb) }
    ensures reads { IfOk result (λ x. CallFrom x (texts_of words.now) pool.new.items) }
    ensures grows { (xs : List ℕ) × (pool.new.items ≡ pool.old.items ++ xs) }
    ensures refuses { IfErr result (λ e. NoCall SetVerb (texts_of words.now) e) }
{
    let [unit, entry, name, kind, rest @ ..] = words else {
        return Err(Complaint::WordCount);
    };
    let entry = entry_name(unit, entry)?;
    let name = number(name)?;
    let kind: Kind = named(kind).ok_or(Complaint::UnknownValue)?;
    let value = kind_value(heap, pool, kind, rest)?;
    Ok(Call::Edit(Edit::Set { entry, name, value }))
}

// A call of a verb, by the words after it. Bytes go to the end of the pool.
fn verb_call(
    heap: Global,
    pool: &mut Vec<u8>,
    verb: Verb,
    words: &[&str],
) -> Result<Call, Complaint>
    ensures verb { IfOk result (λ x. call_verb x ≡ verb) }
    ensures reads { IfOk result (λ x. CallFrom x (texts_of words.now) pool.new.items) }
    ensures grows { (xs : List ℕ) × (pool.new.items ≡ pool.old.items ++ xs) }
    ensures refuses { IfErr result (λ e. NoCall verb (texts_of words.now) e) }
{
    match verb {
        Verb::Unit => unit_call(words),
        Verb::Set => set_call(heap, pool, words),
        _ => plain_call(verb, words),
    }
}

// The call that words say: its verb is the first, its arguments are those after it.
pub fn call(heap: Global, pool: &mut Vec<u8>, name: &str, words: &[&str]) -> Result<Call, Complaint>
    ensures verb { IfOk result (λ x. word_of (call_verb x) ≡ name.now) }
    ensures reads { IfOk result (λ x. CallFrom x (texts_of words.now) pool.new.items) }
    ensures grows { (xs : List ℕ) × (pool.new.items ≡ pool.old.items ++ xs) }
    ensures refuses { IfErr result (λ e. NotRead name.now (texts_of words.now) e) }
{
    let verb: Verb = named(name).ok_or(Complaint::UnknownWord)?;
    verb_call(heap, pool, verb, words)
}
