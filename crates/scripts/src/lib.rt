#![tactic(auto)]

// The script of a session: its calls and values, read from words; and DWARF's names.
pub mod call;
pub mod calls;
pub mod complaint;
pub mod dwarf;
pub mod kind;
pub mod kinds;
pub mod line;
pub mod lines;
pub mod payload;
pub mod row;
pub mod value;
pub mod values;
pub mod verb;

pub use call::{Call, Edit, Look};
pub use complaint::Complaint;
pub use kind::Kind;
pub use kinds::{kind_of, payload as payload_of};
pub use line::{Line, Opening};
pub use lines::read_line;
pub use payload::Payload;
pub use row::{Row, name_in};
pub use value::{EntryName, Value};
