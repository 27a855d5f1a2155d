ghost use Rattle.std.specs.Prelude.{◌≡◌, ℕ, ◌-◌, Bool, true, ◌||◌, ◌==◌, [], length, position, nat_lt};
ghost use Rattle.sections.specs.Notes.{noted, has, distinct};

use sections::{Note, Target};
use std::marker::Model;

const BLANK: Note = Note {
    place: 0,
    size: 0,
    target: Target::Symbol(0),
    addend: 0,
};

// The notes of a relocating layer, of which no two share a place: the first `used` of a fixed table.
// It is no `ArrayVec` of the kit: that fills its unused places by a default of the items, and a note has none
// (`MadeWith` can be given for it in `sections` alone, where nothing would make one).
#[derive(Drop)]
pub struct Notes {
    list: [Note; 512],
    used: usize,
}

impl Model for Notes {
    ghost use Rattle.std.specs.Prelude.{◌≡◌, ◌≤◌, List, true, length, take};
    ghost use Rattle.sections.specs.declared.note.Note.{Note};
    ghost use Rattle.sections.specs.Notes.{distinct};

    ghost Value = { List Note };

    ghost view = { λ t. take t.used t.list };

    ghost invariant = { λ t. (t.used ≤ 512) × (length t.list ≡ 512) × (distinct (take t.used t.list) ≡ true) };
}

impl Notes {
    // No note.
    pub fn new() -> Notes
        ensures { result ≡ [] }
    {
        Notes {
            list: [BLANK; 512],
            used: 0,
        }
    }

    // The notes, in the order in which their places were first noted.
    pub fn as_slice(&self) -> &[Note]
        ensures { result.now ≡ self.now }
    {
        &self.list[..self.used]
    }

    // Where the note of a place stands.
    fn position(&self, place: usize) -> Option<usize>
        ensures { result ≡ position (λ n. n.place == place) self.now }
    {
        self.as_slice().iter().position(|note| note.place == place)
    }

    // Whether a place has a note, or one is left for it.
    pub fn has_room(&self, place: usize) -> bool
        ensures { result ≡ (has place self.now || nat_lt 0 (512 - length self.now)) }
    {
        self.position(place).is_some() || self.used < self.list.len()
    }

    // Puts a note in the place of the one that its place has, or takes one.
    pub fn put(&mut self, note: Note)
        requires { (has note.place self.old || nat_lt 0 (512 - length self.old)) ≡ true }
        ensures list { self.new ≡ noted note self.old }
        ensures apart { distinct self.new ≡ true }
    {
        match self.position(note.place) {
            Some(i) => self.list[i] = note,
            None => {
                self.list[self.used] = note;
                self.used += 1;
            }
        }
    }
}
