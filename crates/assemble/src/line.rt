use super::call::{Order, Pile};
use super::complaint::Complaint;

// What a line of the script says.
#[derive(Drop)]
pub enum Line {
    // Nothing is said: one case of a line as the others, and no `Option` around them.
    Empty,
    Pile(Pile),
    Order(Order),
}

// A line, or what is wrong with it, and its number.
#[derive(Drop)]
pub struct Entry {
    pub number: usize,
    pub line: Result<Line, Complaint>,
}
