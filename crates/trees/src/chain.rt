ghost use Rattle.std.specs.Prelude.{◌≡◌, ℕ};
ghost use Rattle.trees.specs.Chains.{ChainEnds, ChainLies};

use crate::records::{AttributeRecord, EntryRecord, NIL};

// A record that stands in a list, and names the one after it.
pub(crate) trait Linked: Copy {
    // What stands past the end of the memory.
    ghost past: { Self };

    ghost after: { Self → ℕ };

    fn after(&self) -> u16
        ensures { result ≡ after self.now };
}

impl Linked for EntryRecord {
    ghost use Rattle.trees.specs.View.{blank};

    ghost past = { blank };

    ghost after = { λ r. r.next };

    fn after(&self) -> u16 {
        self.next
    }
}

impl Linked for AttributeRecord {
    ghost use Rattle.trees.specs.View.{no_attribute};

    ghost past = { no_attribute };

    ghost after = { λ r. r.next };

    fn after(&self) -> u16 {
        self.next
    }
}

// The records of a list from one on, each with its number.
#[derive(Drop)]
pub(crate) struct Chain<'a, R: Linked> {
    records: &'a [R],
    at: u16,
    ghost ends: { ChainEnds R.past R.after records.now at },
    ghost lies: { ChainLies R.past R.after records.now at },
}

impl<'a, R: Linked> Chain<'a, R> {
    ghost use Rattle.trees.specs.Chains.{chain_from};
    ghost use Rattle.trees.specs.Left.{numbers_left, RecordsInOrder};

    // The records from `at` on, whose list ends and lies in the memory.
    pub(crate) fn new(records: &'a [R], at: u16) -> Chain<'a, R>
        requires ends { ChainEnds R.past R.after records.now at }
        requires lies { ChainLies R.past R.after records.now at }
        ensures list { numbers_left result ≡ chain_from R.past R.after records.now at }
        ensures records { result.records.now ≡ records.now }
        ensures runs { RecordsInOrder R.Linked }
    {
        Chain { records, at }
    }
}

impl<'a, R: Linked> Iterator for Chain<'a, R> {
    ghost use Rattle.std.specs.Iterator.{item_count};
    ghost use Rattle.trees.specs.Left.{numbers_left, ChainSteps};

    type Item = (u16, R);

    ghost next_gives = { ChainSteps };

    ghost remaining = { item_count numbers_left };

    fn next(&mut self) -> Option<(u16, R)> {
        let at = self.at;
        if at == NIL {
            return None;
        }
        let record = self.records[at as usize];
        self.at = record.after();
        Some((at, record))
    }
}
