ghost use Rattle.std.specs.Prelude.{Some};
ghost use Rattle.sessions.specs.Replies.{reply_text};

use scripts::value::EntryName;
use std::fmt;

// What a session answers to an edit, in the script's names.
#[derive(Clone, Copy, Debug, PartialEq, Eq)]
pub enum Reply {
    Unit(u32),
    Id(EntryName),
    Done,
    Told(bool),
}

impl fmt::Display for Reply {
    ghost output = { λ r. Some (reply_text r) };

    fn fmt<W: fmt::Write>(&self, f: &mut fmt::Formatter<W>) -> fmt::Result {
        match *self {
            Reply::Unit(unit) => write!(f, "unit {unit}"),
            Reply::Id(name) => write!(f, "id {name}"),
            Reply::Done => f.write_str("ok"),
            Reply::Told(true) => f.write_str("yes"),
            Reply::Told(false) => f.write_str("no"),
        }
    }
}
