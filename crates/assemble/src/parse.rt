ghost use Rattle.std.specs.Prelude.{◌≡◌, ◌≢◌, ◌≤◌, [], ◌∷◌, IfOk, MatchResult, Some};
ghost use Rattle.numbers.specs.Common.{format_name, section_name};
ghost use Rattle.numbers.specs.Orders.{order_name};
ghost use Rattle.assemble.specs.declared.complaint.Complaint.TheVariants.{UnknownSection};
ghost use Rattle.texts.specs.Texts.{number_of};
ghost use Rattle.assemble.specs.Verbs.{word_of, call_verb, order_verb, CallFrom};

use super::call::{Base, Call, Layers, Order, Pile};
use super::complaint::Complaint;
use super::line::Line;
use super::verb::Verb;
use numbers::{Address, Format, RunTimeEndian, SectionId};
use std::alloc::Global;
use texts::{BadWord, bytes, joined, named, number, whole};

// The most memory of a slice.
const MOST: usize = 65536;

// A section by its name.
fn section(name: &str) -> Result<SectionId, Complaint>
    ensures { MatchResult result (λ x. section_name x ≡ name.now) (λ e. (e ≡ UnknownSection) × ((x : _) → section_name x ≢ name.now)) }
{
    name.parse().or(Err(Complaint::UnknownSection))
}

fn format(text: &str) -> Result<Format, Complaint>
    ensures { IfOk result (λ x. format_name x ≡ text.now) }
{
    text.parse().or(Err(Complaint::Word(BadWord::OutOfRange)))
}

fn endian(text: &str) -> Result<RunTimeEndian, Complaint>
    ensures { IfOk result (λ x. order_name x ≡ text.now) }
{
    text.parse().or(Err(Complaint::BadPile))
}

// A call of one argument.
fn one_argument(heap: Global, verb: Verb, a: &str) -> Result<Call, Complaint>
    ensures named { IfOk result (λ x. call_verb x ≡ verb) }
    ensures reads { IfOk result (λ x. CallFrom x (a.now ∷ [])) }
{
    match verb {
        Verb::Bytes => Ok(Call::Bytes(bytes(heap, a)?)),
        Verb::U8 => Ok(Call::U8(number(a)?)),
        Verb::U16 => Ok(Call::U16(number(a)?)),
        Verb::U32 => Ok(Call::U32(number(a)?)),
        Verb::U64 => Ok(Call::U64(number(a)?)),
        Verb::Uleb128 => Ok(Call::Uleb128(number(a)?)),
        Verb::Sleb128 => Ok(Call::Sleb128(whole(a)?)),
        _ => Err(Complaint::WordCount),
    }
}

// A call in the middle of an offset and another argument.
fn place_and_one(heap: Global, verb: Verb, at: &str, a: &str) -> Result<Call, Complaint>
    ensures named { IfOk result (λ x. call_verb x ≡ verb) }
    ensures reads { IfOk result (λ x. CallFrom x (at.now ∷ a.now ∷ [])) }
{
    let place = number(at)?;
    match verb {
        Verb::BytesAt => Ok(Call::BytesAt(place, bytes(heap, a)?)),
        Verb::U8At => Ok(Call::U8At(place, number(a)?)),
        Verb::U16At => Ok(Call::U16At(place, number(a)?)),
        Verb::U32At => Ok(Call::U32At(place, number(a)?)),
        Verb::U64At => Ok(Call::U64At(place, number(a)?)),
        _ => Err(Complaint::WordCount),
    }
}

// A call of two arguments.
fn two_arguments(heap: Global, verb: Verb, a: &str, b: &str) -> Result<Call, Complaint>
    ensures named { IfOk result (λ x. call_verb x ≡ verb) }
    ensures reads { IfOk result (λ x. CallFrom x (a.now ∷ b.now ∷ [])) }
{
    match verb {
        Verb::U128 => Ok(Call::U128(joined(a, b)?)),
        Verb::Udata => Ok(Call::Udata(number(a)?, number(b)?)),
        Verb::Address => Ok(Call::Address(Address::Constant(number(a)?), number(b)?)),
        Verb::Reference => Ok(Call::Reference(number(a)?, number(b)?)),
        _ => place_and_one(heap, verb, a, b),
    }
}

// A call of three arguments.
fn three_arguments(verb: Verb, a: &str, b: &str, c: &str) -> Result<Call, Complaint>
    ensures named { IfOk result (λ x. call_verb x ≡ verb) }
    ensures reads { IfOk result (λ x. CallFrom x (a.now ∷ b.now ∷ c.now ∷ [])) }
{
    let first = number(a)?;
    match verb {
        Verb::U128At => Ok(Call::U128At(first, joined(b, c)?)),
        Verb::UdataAt => Ok(Call::UdataAt(first, number(b)?, number(c)?)),
        Verb::AddressSymbol => Ok(Call::Address(
            Address::Symbol {
                symbol: first,
                addend: whole(b)?,
            },
            number(c)?,
        )),
        Verb::Offset => Ok(Call::Offset(first, section(b)?, number(c)?)),
        _ => Err(Complaint::WordCount),
    }
}

// A call of four arguments.
fn four_arguments(verb: Verb, at: &str, n: &str, name: &str, size: &str) -> Result<Call, Complaint>
    ensures named { IfOk result (λ x. call_verb x ≡ verb) }
    ensures reads { IfOk result (λ x. CallFrom x (at.now ∷ n.now ∷ name.now ∷ size.now ∷ [])) }
{
    match verb {
        Verb::OffsetAt => Ok(Call::OffsetAt(
            number(at)?,
            number(n)?,
            section(name)?,
            number(size)?,
        )),
        _ => Err(Complaint::WordCount),
    }
}

fn call(heap: Global, verb: Verb, words: &[&str]) -> Result<Call, Complaint>
    ensures { IfOk result (λ c. call_verb c ≡ verb) }
{
    match words {
        [a] => one_argument(heap, verb, a),
        [a, b] => two_arguments(heap, verb, a, b),
        [a, b, c] => three_arguments(verb, a, b, c),
        [a, b, c, d] => four_arguments(verb, a, b, c, d),
        _ => Err(Complaint::WordCount),
    }
}

fn verb_order(heap: Global, verb: Verb, words: &[&str]) -> Result<Order, Complaint>
    ensures { IfOk result (λ o. order_verb o ≡ verb) }
{
    match (verb, words) {
        (Verb::OpenLength, [bits]) => Ok(Order::OpenLength(format(bits)?)),
        (Verb::FillLength, [i, n]) => Ok(Order::FillLength(number(i)?, number(n)?)),
        (Verb::GiveUp, [i]) => Ok(Order::GiveUp(number(i)?)),
        (Verb::OpenLength | Verb::FillLength | Verb::GiveUp, _) => Err(Complaint::WordCount),
        _ => Ok(Order::Run(call(heap, verb, words)?)),
    }
}

// What a line asks of a section: its first word is the order's verb, the others are its arguments.
fn order(heap: Global, name: &str, words: &[&str]) -> Result<Order, Complaint>
    ensures { IfOk result (λ o. word_of (order_verb o) ≡ name.now) }
{
    let verb = named(name).ok_or(Complaint::UnknownWord)?;
    verb_order(heap, verb, words)
}

// The memory of a slice.
fn memory_size(text: &str) -> Result<usize, Complaint>
    ensures { IfOk result (λ n. (number_of text.now ≡ Some n) × (n ≤ 65536)) }
{
    let n = number(text)?;
    if n > MOST {
        return Err(Complaint::TooMuchMemory);
    }
    Ok(n)
}

fn layers(words: &[&str]) -> Result<Layers, Complaint> {
    match words {
        [] => Ok(Layers::Plain),
        ["relocating"] => Ok(Layers::Relocating),
        ["quota", limit] => Ok(Layers::Quota(number(limit)?)),
        ["relocating", "quota", limit] => Ok(Layers::RelocatingQuota(number(limit)?)),
        ["quota", limit, "relocating"] => Ok(Layers::QuotaRelocating(number(limit)?)),
        _ => Err(Complaint::BadPile),
    }
}

fn pile(words: &[&str]) -> Result<Pile, Complaint> {
    let (base, above) = match words {
        ["slice", size, order, above @ ..] => (
            Base::Slice(memory_size(size)?, endian(order)?),
            above,
        ),
        ["page", order, above @ ..] => (Base::Page(endian(order)?), above),
        _ => return Err(Complaint::BadPile),
    };
    Ok(Pile {
        base,
        layers: layers(above)?,
    })
}

// What a line says.
pub fn read_line(heap: Global, text: &str) -> Result<Line, Complaint> {
    let words: Vec<&str> = text.split_whitespace().collect(heap)?;
    match words.as_slice() {
        [] => Ok(Line::Empty),
        ["pile", words @ ..] => Ok(Line::Pile(pile(words)?)),
        [name, ..] if name.starts_with('#') => Ok(Line::Empty),
        [name, words @ ..] => Ok(Line::Order(order(heap, name, words)?)),
    }
}
