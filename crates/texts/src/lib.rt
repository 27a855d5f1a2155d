#![tactic(auto)]

// Words of a script: numbers and bytes as text, and the values that a word says.
pub mod bad_word;
mod digits;
pub mod narrow;
pub mod word;
pub mod words;

pub use bad_word::BadWord;
pub use narrow::Narrow;
pub use word::{Word, named};
pub use words::{bytes, joined, number, whole};
