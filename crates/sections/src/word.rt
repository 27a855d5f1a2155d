ghost use Rattle.std.specs.Prelude.{◌≡◌, [], ◌∷◌};
ghost use Rattle.sections.specs.Section.{verdict, word_checks, odd_size};

use super::fault::Fault;

// Whether words have this size.
pub fn check_size(size: u8) -> Result<(), Fault>
    ensures { result ≡ verdict (odd_size size ∷ []) }
{
    match size {
        1 | 2 | 3 | 4 | 8 => Ok(()),
        _ => Err(Fault::UnsupportedWordSize(size)),
    }
}

// Whether words have this size, and then whether the number fits one.
pub fn check_word(val: u64, size: u8) -> Result<(), Fault>
    ensures { result ≡ verdict (word_checks val size) }
{
    let limit = match size {
        1 => 0x100,
        2 => 0x1_0000,
        3 => 0x100_0000,
        4 => 0x1_0000_0000,
        8 => return Ok(()),
        _ => return Err(Fault::UnsupportedWordSize(size)),
    };
    if val < limit {
        Ok(())
    } else {
        Err(Fault::ValueTooLarge)
    }
}
