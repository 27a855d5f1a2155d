ghost use Rattle.std.specs.Prelude.{◌≡◌, ◌<◌, length};
ghost use Rattle.trees.specs.Attributes.{records_of};
ghost use Rattle.trees.specs.Counts.{tallied, Countable, counts_in, counts_of, left_of, names_file, any_file, file_in, uses_files};
ghost use Rattle.trees.specs.Lists.{nil};
ghost use Rattle.trees.specs.Model.{entry_of};
ghost use Rattle.trees.specs.View.{view};

use crate::chain::Chain;
use crate::records::{AttributeValue, Counts, Left, Records, State, UnitId};
use crate::table::UnitTable;

impl Counts {
    // With one more entry, in a state.
    fn tally(self, state: State) -> Counts
        requires { Countable self }
        ensures { result ≡ tallied self state }
    {
        match state {
            State::Root => self,
            State::Waiting => Counts {
                waiting: self.waiting + 1,
                ..self
            },
            State::Placed => Counts {
                placed: self.placed + 1,
                ..self
            },
            State::TakenOut => Counts {
                taken_out: self.taken_out + 1,
                ..self
            },
            State::GivenBack => Counts {
                given_back: self.given_back + 1,
                ..self
            },
        }
    }
}

impl AttributeValue {
    // Whether the value is a file index that names a file.
    fn names_file(self) -> bool
        ensures { result ≡ names_file self }
    {
        matches!(self, AttributeValue::FileIndex(Some(_)))
    }
}

impl<'a> Records<'a> {
    // How many entries are in each state.
    fn count_states(&self) -> Counts
        ensures { result ≡ counts_in (view self.now).entries }
    {
        let mut counts = Counts::default();
        for entry in &self.entries[..self.entry_count] {
            counts = counts.tally(entry.state);
        }
        counts
    }

    // How many records of dropped attributes wait for another.
    fn count_free(&self) -> usize
        ensures { result ≡ length (records_of self.now nil) }
    {
        Chain::new(&*self.attributes, self.free).count()
    }

    // Whether an attribute of an entry names a file.
    fn entry_names_file(&self, e: usize) -> bool
        requires used { e < self.now.entry_count }
        ensures { result ≡ any_file (entry_of (view self.now) e).attributes }
    {
        Chain::new(&*self.attributes, self.entries[e].attribute).any(|(_, record)| record
            .attribute
            .value
            .names_file())
    }

    // Whether an entry of a unit, whatever its state, names a file.
    fn unit_names_file(&self, unit: u32) -> bool
        ensures { result ≡ file_in unit (view self.now).entries }
    {
        for (e, entry) in self.entries[..self.entry_count].iter().enumerate() {
            if entry.unit as u32 == unit && self.entry_names_file(e) {
                return true;
            }
        }
        false
    }
}

impl<'a> UnitTable<'a> {
    // How many entries are in each state.
    pub fn counts(&self) -> Counts
        ensures { result ≡ counts_of (view self.now.records) }
    {
        self.records.count_states()
    }

    // How many records of each kind are left.
    pub fn left(&self) -> Left
        ensures { result ≡ left_of (view self.now.records) }
    {
        let unused = self.records.attributes.len() - self.records.attribute_count;
        Left {
            units: self.records.units.len() - self.records.unit_count,
            entries: self.records.entries.len() - self.records.entry_count,
            attributes: unused + self.records.count_free(),
        }
    }

    // Whether an entry of a unit, reached or not, has a file index that names a file: then the unit
    // uses its line program.
    pub fn uses_files(&self, unit: UnitId) -> bool
        ensures { result ≡ uses_files (view self.now.records) unit }
    {
        self.knows_unit(unit) && self.records.unit_names_file(unit.unit)
    }
}
