ghost use Rattle.std.specs.Prelude.{◌≡◌, ◌<◌, ◌≤◌, true, false, [], length, is_ok, Ok};
ghost use Rattle.trees.specs.Model.{entry_id, new_table, knows, knows_unit, knows_both, root_of, unit_if, passes, first_fault, edit_checks, add_unit, reserve, add_reserved, add, give_back, delete_child, set_sibling, fits, set_attribute, delete_attribute};
ghost use Rattle.trees.specs.History.{Stands};
ghost use Rattle.trees.specs.Growth.{Grows};
ghost use Rattle.trees.specs.Cursors.{RecordOf, FirstOf, FirstAttributeOf};
ghost use Rattle.trees.specs.View.{view};

use crate::records::{
    Attribute, AttributeRecord, AttributeValue, EditFault, Encoding, EntryRecord, LineProgram, NIL,
    Records, Refusal, Reservation, UnitEntryId, UnitId, UnitRecord,
};

// The name of the sibling attribute, which the writer alone sets.
pub const DW_AT_SIBLING: u16 = 0x01;

pub const MAX_UNITS: usize = 64;

pub const MAX_ENTRIES: usize = 65_535;

pub const MAX_ATTRIBUTES: usize = 65_535;

pub const MAX_POOL: usize = 1_048_576;

#[derive(Drop)]
pub struct UnitTable<'a> {
    pub(crate) records: Records<'a>,
}

impl<'a> UnitTable<'a> {
    // An empty table over the caller's memory, used up to the limits.
    pub fn new(
        number: u32,
        units: &'a mut [UnitRecord],
        entries: &'a mut [EntryRecord],
        attributes: &'a mut [AttributeRecord],
        pool: &'a [u8],
    ) -> UnitTable<'a>
        ensures law { Stands [] (view result.records) }
        ensures growth { Grows [] (view result.records) }
        ensures empty { view result.records ≡ new_table number (length units.old) (length entries.old) (length attributes.old) pool.now }
    {
        let m = units.len().min(MAX_UNITS);
        let n = entries.len().min(MAX_ENTRIES);
        let k = attributes.len().min(MAX_ATTRIBUTES);
        let l = pool.len().min(MAX_POOL);
        UnitTable {
            records: Records {
                units: &mut units[..m],
                entries: &mut entries[..n],
                attributes: &mut attributes[..k],
                pool: &pool[..l],
                number,
                closed: false,
                unit_count: 0,
                entry_count: 0,
                attribute_count: 0,
                free: NIL,
            },
        }
    }

    // Whether the table has the unit.
    pub fn knows_unit(&self, id: UnitId) -> bool
        ensures { result ≡ knows_unit (view self.now.records) id }
    {
        id.table == self.records.number && (id.unit as usize) < self.records.unit_count
    }

    // Whether the table has the entry, and it was not given back.
    pub fn knows(&self, id: UnitEntryId) -> bool
        ensures { result ≡ knows (view self.now.records) id }
    {
        let e = id.entry as usize;
        if id.table != self.records.number {
            return false;
        }
        if e >= self.records.entry_count {
            return false;
        }
        let entry = self.records.entries[e];
        entry.unit as u32 == id.unit && !entry.state.is_given_back()
    }

    // Whether the table has both entries, in one unit.
    fn knows_both(&self, a: UnitEntryId, b: UnitEntryId) -> bool
        ensures { result ≡ knows_both (view self.now.records) a b }
    {
        self.knows(a) && self.knows(b) && a.unit == b.unit
    }

    // The root of a unit.
    pub fn root(&self, id: UnitId) -> Option<UnitEntryId>
        ensures { result ≡ root_of (view self.now.records) id }
    {
        let unit = self.unit_record(id)?;
        Some(self.name_entry(id.unit, unit.root as usize))
    }

    // The id of an entry of a unit.
    fn name_entry(&self, unit: u32, entry: usize) -> UnitEntryId
        requires { entry ≤ 65535 }
        ensures { result ≡ record { table = self.now.records.number; unit = unit; entry = entry } }
    {
        UnitEntryId {
            table: self.records.number,
            unit,
            entry: entry as u32,
        }
    }

    // A unit's record, if the table has the unit. The public `unit` forwards to this: it has no file of answers, so
    // that what is wrong in it is told at its own line.
    pub(crate) fn unit_record(&self, id: UnitId) -> Option<UnitRecord>
        ensures { result ≡ unit_if (view self.now.records) id }
    {
        if !self.knows_unit(id) {
            return None;
        }
        Some(self.records.units[id.unit as usize])
    }

    // An entry's record, if the table knows the entry.
    pub(crate) fn entry_record(&self, id: UnitEntryId) -> Option<EntryRecord>
        ensures { RecordOf (view self.now.records) id result }
    {
        if !self.knows(id) {
            return None;
        }
        Some(self.records.entries[id.entry as usize])
    }

    // The first child of an entry, NIL where there is none or the id is not known: a link, at which
    // a cursor begins, and NIL is the end of every list.
    pub(crate) fn first_child(&self, id: UnitEntryId) -> u16
        ensures { FirstOf self.now.records id result }
    {
        if !self.knows(id) {
            return NIL;
        }
        self.records.entries[id.entry as usize].first
    }

    // The record of an entry's first attribute, NIL where there is none or the id is not known: a
    // link, as the first child.
    pub(crate) fn first_attribute(&self, id: UnitEntryId) -> u16
        ensures { FirstAttributeOf self.now.records id result }
    {
        if !self.knows(id) {
            return NIL;
        }
        self.records.entries[id.entry as usize].attribute
    }

    // What every edit of a unit checks first: session closed, an id not known, unit written. Each
    // call tests ids of its own, so that its answer comes in as a flag: a form for each would be no plainer.
    fn check(&self, known: bool, unit: u32) -> Result<(), EditFault>
        requires { known ≡ true → unit < self.now.records.unit_count }
        ensures { result ≡ passes (first_fault (edit_checks (view self.now.records) known unit [])) }
    {
        if self.records.closed {
            return Err(EditFault::SessionClosed);
        }
        if !known {
            return Err(EditFault::UnknownId);
        }
        if self.records.units[unit as usize].written {
            return Err(EditFault::UnitWritten);
        }
        Ok(())
    }

    // Adds a unit, with its root.
    pub(crate) fn try_add(
        &mut self,
        encoding: Encoding,
        line: Option<LineProgram>,
    ) -> Result<UnitId, EditFault>
        ensures outcome { (view self.new.records, result) ≡ add_unit (view self.old.records) encoding line }
        ensures declined { is_ok result ≡ false → self.new ≡ self.old }
    {
        if self.records.closed {
            return Err(EditFault::SessionClosed);
        }
        let unit = self.records.unit_count;
        if unit >= self.records.units.len() {
            return Err(EditFault::TableFull);
        }
        if self.records.entry_count >= self.records.entries.len() {
            return Err(EditFault::TableFull);
        }
        let id = UnitId {
            table: self.records.number,
            unit: unit as u32,
        };
        self.records.open_unit(encoding, line);
        Ok(id)
    }

    // Reserves an entry in a unit: its id, to refer to it, and the reservation, to add it.
    pub(crate) fn try_reserve(
        &mut self,
        unit: UnitId,
    ) -> Result<(UnitEntryId, Reservation), EditFault>
        ensures outcome { (view self.new.records, result) ≡ reserve (view self.old.records) unit }
        ensures declined { is_ok result ≡ false → self.new ≡ self.old }
    {
        self.check(self.knows_unit(unit), unit.unit)?;
        let entry = self.records.entry_count;
        if entry >= self.records.entries.len() {
            return Err(EditFault::TableFull);
        }
        let id = self.name_entry(unit.unit, entry);
        self.records.grant(unit.unit as u16);
        Ok((id, Reservation { id }))
    }

    // Spends a reservation: its entry becomes the last child of `parent`.
    pub(crate) fn try_add_reserved(
        &mut self,
        reservation: Reservation,
        parent: UnitEntryId,
        tag: u16,
    ) -> Result<(), Refusal>
        ensures outcome { (view self.new.records, result) ≡ add_reserved (view self.old.records) reservation parent tag }
        ensures declined { is_ok result ≡ false → self.new ≡ self.old }
    {
        let id = reservation.id;
        if let Err(fault) = self.check(self.knows_both(id, parent), id.unit) {
            return Err(Refusal { fault, reservation });
        }
        let c = id.entry as usize;
        if !self.records.entries[c].state.is_waiting() {
            return Err(Refusal {
                fault: EditFault::NotWaiting,
                reservation,
            });
        }
        let Reservation { id: _ } = reservation;
        self.records.place(c, parent.entry as usize, tag);
        Ok(())
    }

    // Adds a child at once: reserves an entry and places it, or neither.
    pub(crate) fn try_add_entry(
        &mut self,
        parent: UnitEntryId,
        tag: u16,
    ) -> Result<UnitEntryId, EditFault>
        ensures outcome { (view self.new.records, result) ≡ add (view self.old.records) parent tag }
        ensures declined { is_ok result ≡ false → self.new ≡ self.old }
    {
        self.check(self.knows(parent), parent.unit)?;
        let entry = self.records.entry_count;
        if entry >= self.records.entries.len() {
            return Err(EditFault::TableFull);
        }
        let id = self.name_entry(parent.unit, entry);
        self.records.grant(parent.unit as u16);
        self.records.place(entry, parent.entry as usize, tag);
        Ok(id)
    }

    // Gives a reservation back, never declined: yes if its entry was waiting here.
    pub(crate) fn try_give_back(&mut self, reservation: Reservation) -> bool
        ensures outcome { (view self.new.records, result) ≡ give_back (view self.old.records) reservation }
        ensures declined { result ≡ false → self.new ≡ self.old }
    {
        let Reservation { id } = reservation;
        let e = id.entry as usize;
        if !self.knows(id) {
            return false;
        }
        if !self.records.entries[e].state.is_waiting() {
            return false;
        }
        self.records.retire(e);
        true
    }

    // Takes a child out of the children of `parent`: yes if it was one.
    pub(crate) fn try_delete_child(
        &mut self,
        parent: UnitEntryId,
        child: UnitEntryId,
    ) -> Result<bool, EditFault>
        ensures outcome { (view self.new.records, result) ≡ delete_child (view self.old.records) parent child }
        ensures declined { is_ok result ≡ false → self.new ≡ self.old }
        ensures absent { result ≡ Ok false → self.new ≡ self.old }
    {
        self.check(self.knows_both(parent, child), parent.unit)?;
        let p = parent.entry as usize;
        match self.records.before(p, child.entry as u16) {
            None => Ok(false),
            Some(before) => {
                self.records.take_out(p, child.entry as usize, before);
                Ok(true)
            }
        }
    }

    // Sets or clears the sibling flag.
    pub(crate) fn try_set_sibling(
        &mut self,
        id: UnitEntryId,
        sibling: bool,
    ) -> Result<(), EditFault>
        ensures outcome { (view self.new.records, result) ≡ set_sibling (view self.old.records) id sibling }
        ensures declined { is_ok result ≡ false → self.new ≡ self.old }
    {
        self.check(self.knows(id), id.unit)?;
        self.records.flag(id.entry as usize, sibling);
        Ok(())
    }

    // Whether the value's part of the pool, if it is one, lies in the pool.
    fn holds_span(&self, value: AttributeValue) -> bool
        ensures { result ≡ fits (length self.now.records.pool.now) value }
    {
        let size = self.records.pool.len();
        value
            .span()
            .is_none_or(|span| span.start <= size && span.len <= size - span.start)
    }

    // Sets an attribute: its value is replaced where its name stands, or it is appended.
    pub(crate) fn try_set(
        &mut self,
        id: UnitEntryId,
        name: u16,
        value: AttributeValue,
    ) -> Result<(), EditFault>
        ensures outcome { (view self.new.records, result) ≡ set_attribute (view self.old.records) id name value }
        ensures declined { is_ok result ≡ false → self.new ≡ self.old }
    {
        self.check(self.knows(id), id.unit)?;
        if name == DW_AT_SIBLING {
            return Err(EditFault::SiblingName);
        }
        if !self.holds_span(value) {
            return Err(EditFault::SpanOutOfBounds);
        }
        let e = id.entry as usize;
        let attribute = Attribute { name, value };
        match self.records.find(e, name) {
            Ok(place) => self.records.replace(e, place, attribute),
            Err(last) => {
                if !self.records.has_spare() {
                    return Err(EditFault::TableFull);
                }
                self.records.append(e, last, attribute);
            }
        }
        Ok(())
    }

    // Drops an attribute, if the entry has it.
    pub(crate) fn try_delete(&mut self, id: UnitEntryId, name: u16) -> Result<(), EditFault>
        ensures outcome { (view self.new.records, result) ≡ delete_attribute (view self.old.records) id name }
        ensures declined { is_ok result ≡ false → self.new ≡ self.old }
    {
        self.check(self.knows(id), id.unit)?;
        let e = id.entry as usize;
        if let Ok(place) = self.records.find(e, name) {
            self.records.remove(e, place);
        }
        Ok(())
    }
}

impl Reservation {
    // The id of its entry.
    pub fn id(&self) -> UnitEntryId
        ensures { result ≡ entry_id self.now }
    {
        self.id
    }
}
