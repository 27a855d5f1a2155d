ghost use Rattle.std.specs.Prelude.{◌≡◌, ◌≤◌, length, MatchOption};
ghost use Rattle.trees.specs.History.{times};
ghost use Rattle.sessions.specs.Rolls.{IsEntryOf, Named};
ghost use Rattle.sessions.specs.Sessions.{InIds, NotMade};

use scripts::value::{EntryName, Value};
use trees::{AttributeValue, DebugInfoRef, UnitEntryId};

// An entry that no table has: one of 65,535 entries at most numbers them from 0. The id of a name that was not granted
// still goes to the table, which declines it in its own order of checks; so it is a number, and no Option.
const NOWHERE: u32 = 0xffff_ffff;

// The names of a table's entries: `homes` has the unit of each entry in the order granted.
#[derive(Clone, Copy)]
pub struct Roll<'a> {
    pub table: u32,
    pub homes: &'a [u32],
}

impl<'a> Roll<'a> {
    // How many entries of a unit were granted.
    pub fn count(self, unit: u32) -> usize
        ensures { result ≡ times unit self.entry.homes.now }
    {
        let mut n = 0;
        for home in self.homes {
            if *home == unit {
                n += 1;
            }
        }
        n
    }

    // The script's name of an entry: its unit, and how many of the unit were granted before it.
    pub fn name_of(self, e: usize) -> Option<EntryName>
        ensures { MatchOption result (length self.entry.homes.now ≤ e) (λ x. IsEntryOf self.entry.homes.now x e) }
    {
        let unit = *self.homes.get(e)?;
        let before = Roll {
            homes: &self.homes[..e],
            ..self
        };
        Some(EntryName {
            unit,
            entry: before.count(unit),
        })
    }

    // The entry that a script names: the one that was granted as the number-th of the unit. The count goes down
    // at entries of the unit alone, so it is no index.
    pub fn entry_named(self, name: EntryName) -> Option<usize>
        ensures { MatchOption result (times name.unit self.entry.homes.now ≤ name.entry) (IsEntryOf self.entry.homes.now name) }
    {
        let mut left = name.entry;
        for (e, home) in self.homes.iter().enumerate() {
            if *home == name.unit {
                if left == 0 {
                    return Some(e);
                }
                left -= 1;
            }
        }
        None
    }

    // The id of an entry that was granted, and none of one that was not.
    pub fn granted_id(self, name: EntryName) -> Option<UnitEntryId>
        ensures { MatchOption result (length self.entry.homes.now ≤ 4294967295 → times name.unit self.entry.homes.now ≤ name.entry) (λ i. (i.table ≡ self.entry.table) × (i.unit ≡ name.unit) × IsEntryOf self.entry.homes.now name i.entry) }
    {
        let e = self.entry_named(name)?;
        Some(UnitEntryId {
            table: self.table,
            unit: name.unit,
            entry: u32::try_from(e).ok()?,
        })
    }

    // The id of an entry that a script names; of one that was not granted, an id that no table knows.
    pub fn id_of(self, name: EntryName) -> UnitEntryId
        ensures { Named self.entry.homes.now self.entry.table name result }
    {
        self.granted_id(name).unwrap_or(UnitEntryId {
            table: self.table,
            unit: name.unit,
            entry: NOWHERE,
        })
    }

    // A value in the table's ids, none where it refers to an entry that was not granted.
    pub(crate) fn in_ids(self, value: Value) -> Option<AttributeValue>
        ensures { MatchOption result (NotMade self.entry.homes.now value) (InIds self.entry.homes.now self.entry.table value) }
    {
        match value {
            Value::Plain(plain) => Some(plain),
            Value::UnitRef(name) => Some(AttributeValue::UnitRef(self.granted_id(name)?)),
            Value::InfoRef(name) => {
                let entry = DebugInfoRef::Entry(self.granted_id(name)?);
                Some(AttributeValue::DebugInfoRef(entry))
            }
        }
    }
}
