ghost use Rattle.std.specs.Prelude.{◌≡◌, ◌==◌, Some, None, MatchOption, find, option_map};
ghost use Rattle.scripts.specs.Rows.{name_in_rows};

// A code of DWARF and its name.
#[derive(Clone, Copy, Debug, PartialEq, Eq)]
pub struct Row {
    pub code: u16,
    pub name: &'static str,
}

// A table of rows, each by its code and its name.
macro_rules! rows {
    ($($code:literal => $name:literal),* $(,)?) => {
        [$(Row { code: $code, name: $name }),*]
    };
}

pub(crate) use rows;

// The first row with a code.
fn row_in(rows: &[Row], code: u16) -> Option<&Row>
    ensures { option_map (λ row. row.now) result ≡ find (λ row. row.code == code) rows.now }
{
    rows.iter().find(|row| row.code == code)
}

// The name of a code in a table: that of the first row with the code, and none where no row has it.
pub fn name_in(rows: &[Row], code: u16) -> Option<&'static str>
    ensures { MatchOption result (name_in_rows rows.now code ≡ None) (λ s. name_in_rows rows.now code ≡ Some s.now) }
{
    row_in(rows, code).map(|row| row.name)
}
