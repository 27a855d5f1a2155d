use crate::call::Call;
use numbers::RunTimeEndian;

// How a session begins: its name, its byte order, and how many records its table is given.
#[derive(Drop)]
pub struct Opening {
    pub name: String,
    pub endian: RunTimeEndian,
    pub units: usize,
    pub entries: usize,
    pub attributes: usize,
}

// What a line of a script says.
#[derive(Drop)]
pub enum Line {
    // Nothing is said: one case of a line as the others, and no `Option` around them.
    Empty,
    Session(Opening),
    End,
    Call(Call),
}
