#![tactic(auto)]

mod contents;
mod data;
mod fault;
mod laws;
mod length;
mod note;
mod token;
mod word;
mod writer;

pub use contents::Contents;
pub use data::{write_leb128, write_number, write_number_at, write_udata, write_udata_at};
pub use fault::Fault;
pub use laws::number_laws;
pub use length::{write_initial_length, write_initial_length_at};
pub use note::{Note, Target};
pub use token::InitialLengthOffset;
pub use word::{check_size, check_word};
pub use writer::{LinkWriter, Writer};
