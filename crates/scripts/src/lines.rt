ghost use Rattle.std.specs.Prelude.{◌≡◌, ℕ, min, IfOk, List, [], ◌∷◌, ◌++◌, Some};
ghost use Rattle.texts.specs.Texts.{number_of};
ghost use Rattle.scripts.specs.Lines.{Records, OpeningFrom, LineSays};
ghost use Rattle.scripts.specs.Values.{texts_of};

use crate::call::Call;
use crate::calls::call;
use crate::complaint::Complaint;
use crate::line::{Line, Opening};
use std::alloc::Global;
use texts::number;
use trees::table::{MAX_ATTRIBUTES, MAX_ENTRIES, MAX_UNITS};

// So many records, cut to the most.
fn records(text: &str, most: usize) -> Result<usize, Complaint>
    ensures { IfOk result (Records text.now most) }
{
    Ok(number::<usize>(text)?.min(most))
}

// A session whose table has the most records.
fn full(heap: Global, name: &str, order: &str) -> Result<Opening, Complaint>
    ensures { IfOk result (λ x. OpeningFrom x (name.now ∷ order.now ∷ [])) }
{
    Ok(Opening {
        name: String::from_str(heap, name)?,
        endian: order.parse().map_err(|_| Complaint::BadSession)?,
        units: MAX_UNITS,
        entries: MAX_ENTRIES,
        attributes: MAX_ATTRIBUTES,
    })
}

// How a session begins.
fn opening(heap: Global, words: &[&str]) -> Result<Opening, Complaint>
    ensures { IfOk result (λ x. OpeningFrom x (texts_of words.now)) }
{
    match words {
        [name, order] => full(heap, name, order),
        [name, order, units, entries, attributes] => {
            let most = full(heap, name, order)?;
            Ok(Opening {
                units: records(units, most.units)?,
                entries: records(entries, most.entries)?,
                attributes: records(attributes, most.attributes)?,
                ..most
            })
        }
        _ => Err(Complaint::WordCount),
    }
}

// What the words of a line say.
#[tactic(auto, using(crate::proofs::Words::texts_from))]
fn words_line(heap: Global, pool: &mut Vec<u8>, words: &[&str]) -> Result<Line, Complaint>
    ensures says { IfOk result (λ x. LineSays x (texts_of words.now) pool.new.items) }
    ensures grows { (xs : List ℕ) × (pool.new.items ≡ pool.old.items ++ xs) }
{
    match words {
        [] => Ok(Line::Empty),
        [name, ..] if name.starts_with('#') => Ok(Line::Empty),
        ["session", rest @ ..] => Ok(Line::Session(opening(heap, rest)?)),
        ["end"] => Ok(Line::End),
        ["end", ..] => Err(Complaint::WordCount),
        [name, rest @ ..] => Ok(Line::Call(call(heap, pool, name, rest)?)),
    }
}

// What a line says. Bytes go to the end of the pool.
pub fn read_line(heap: Global, pool: &mut Vec<u8>, text: &str) -> Result<Line, Complaint>
    ensures says { IfOk result (λ x. (ws : List (List ℕ)) × LineSays x ws pool.new.items) }
    ensures grows { (xs : List ℕ) × (pool.new.items ≡ pool.old.items ++ xs) }
{
    let words: Vec<&str> = text.split_whitespace().collect(heap)?;
    words_line(heap, pool, words.as_slice())
}
