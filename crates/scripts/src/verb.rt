ghost use Rattle.std.specs.Prelude.{◌≡◌};
ghost use Rattle.scripts.specs.Verbs.{word_of, in_all};
ghost use Rattle.scripts.specs.declared.verb.TheConstants.{VERBS};

use texts::Word;

// The word that says what a line of a session asks.
#[derive(Clone, Copy, Debug, PartialEq, Eq)]
pub enum Verb {
    Unit,
    Reserve,
    AddReserved,
    Add,
    Set,
    Delete,
    SetSibling,
    DeleteChild,
    GiveBack,
    Attrs,
    Children,
    Entry,
}

const VERBS: [Verb; 12] = [
    Verb::Unit,
    Verb::Reserve,
    Verb::AddReserved,
    Verb::Add,
    Verb::Set,
    Verb::Delete,
    Verb::SetSibling,
    Verb::DeleteChild,
    Verb::GiveBack,
    Verb::Attrs,
    Verb::Children,
    Verb::Entry,
];

impl Word for Verb {
    ghost text = { word_of };

    ghost all = { VERBS };

    fn word(self) -> &'static str {
        match self {
            Verb::Unit => "unit",
            Verb::Reserve => "reserve",
            Verb::AddReserved => "add_reserved",
            Verb::Add => "add",
            Verb::Set => "set",
            Verb::Delete => "delete",
            Verb::SetSibling => "set_sibling",
            Verb::DeleteChild => "delete_child",
            Verb::GiveBack => "give_back",
            Verb::Attrs => "attrs",
            Verb::Children => "children",
            Verb::Entry => "entry",
        }
    }

    fn all() -> &'static [Verb] {
        &VERBS
    }

    ghost complete = { in_all };
}
