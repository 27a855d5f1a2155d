#![tactic(auto)]

mod memory;
mod page;
mod plain;
mod slice;

pub use layers::{Quota, Relocating};
pub use page::PageWriter;
pub use sections::{
    Contents, Fault, InitialLengthOffset, LinkWriter, Note, Target, Writer, check_size, check_word,
    write_initial_length, write_initial_length_at, write_leb128, write_number, write_number_at,
    write_udata, write_udata_at,
};
pub use slice::SliceWriter;

#[cfg(test)]
mod tests;
