ghost use Rattle.std.specs.Prelude.{◌≡◌, true, false, ◌∷◌, length, is_ok, Ok};
ghost use Rattle.trees.specs.History.{History, Stands, Act.unit_added, Act.reserved, Act.reserved_added, Act.entry_added, Act.gave_back, Act.child_deleted, Act.edited};
ghost use Rattle.trees.specs.Growth.{Deeds, Grows, Deed as deed};
ghost use Rattle.trees.specs.Model.{add_unit, reserve, add_reserved, add, give_back, delete_child, set_sibling, set_attribute, delete_attribute, close_session, written_if, unit_if, tag_if, note_if, note_of};
ghost use Rattle.trees.specs.View.{view};

use crate::records::{
    AttributeValue, EditFault, Encoding, LineProgram, Note, Refusal, Reservation, UnitEntryId,
    UnitId, UnitRecord,
};
use crate::table::UnitTable;

// The calls of a session. Each forwards to the one that does the work (`try_add` and so on), whose
// proof is of the outcome alone: the laws are one answer for each call, and not one for each way out.
// Each says its answer and the table that it leaves, that a declined one leaves every record as it was,
// and that what the answers so far tell of the entries and their trees stays true.
impl<'a> UnitTable<'a> {
    // Adds a unit, with its root.
    pub fn add(
        &mut self,
        encoding: Encoding,
        line: Option<LineProgram>,
    ) -> Result<UnitId, EditFault>
        ensures outcome { (view self.new.records, result) ≡ add_unit (view self.old.records) encoding line }
        ensures declined { is_ok result ≡ false → self.new ≡ self.old }
        ensures law { (h : History) → Stands h (view self.old.records) → Stands (unit_added result ∷ h) (view self.new.records) }
        ensures growth { (h : Deeds) → Grows h (view self.old.records) → Grows (deed.unit_added encoding line result ∷ h) (view self.new.records) }
    {
        self.try_add(encoding, line)
    }

    // Reserves an entry in a unit: its id, to refer to it, and the reservation, to add it.
    pub fn reserve(&mut self, unit: UnitId) -> Result<(UnitEntryId, Reservation), EditFault>
        ensures outcome { (view self.new.records, result) ≡ reserve (view self.old.records) unit }
        ensures declined { is_ok result ≡ false → self.new ≡ self.old }
        ensures law { (h : History) → Stands h (view self.old.records) → Stands (reserved unit result ∷ h) (view self.new.records) }
        ensures growth { (h : Deeds) → Grows h (view self.old.records) → Grows (deed.reserved unit result ∷ h) (view self.new.records) }
    {
        self.try_reserve(unit)
    }

    // Spends a reservation: its entry becomes the last child of `parent`. A refusal hands the reservation back.
    pub fn add_reserved(
        &mut self,
        reservation: Reservation,
        parent: UnitEntryId,
        tag: u16,
    ) -> Result<(), Refusal>
        ensures outcome { (view self.new.records, result) ≡ add_reserved (view self.old.records) reservation parent tag }
        ensures declined { is_ok result ≡ false → self.new ≡ self.old }
        ensures law { (h : History) → Stands h (view self.old.records) → Stands (reserved_added reservation parent result ∷ h) (view self.new.records) }
        ensures growth { (h : Deeds) → Grows h (view self.old.records) → Grows (deed.reserved_added reservation parent tag result ∷ h) (view self.new.records) }
    {
        self.try_add_reserved(reservation, parent, tag)
    }

    // Adds a child at once: reserves an entry and places it, or neither.
    pub fn add_entry(&mut self, parent: UnitEntryId, tag: u16) -> Result<UnitEntryId, EditFault>
        ensures outcome { (view self.new.records, result) ≡ add (view self.old.records) parent tag }
        ensures declined { is_ok result ≡ false → self.new ≡ self.old }
        ensures law { (h : History) → Stands h (view self.old.records) → Stands (entry_added parent result ∷ h) (view self.new.records) }
        ensures growth { (h : Deeds) → Grows h (view self.old.records) → Grows (deed.entry_added parent tag result ∷ h) (view self.new.records) }
    {
        self.try_add_entry(parent, tag)
    }

    // Gives a reservation back, never declined: yes if its entry was waiting here.
    pub fn give_back(&mut self, reservation: Reservation) -> bool
        ensures outcome { (view self.new.records, result) ≡ give_back (view self.old.records) reservation }
        ensures declined { result ≡ false → self.new ≡ self.old }
        ensures law { (h : History) → Stands h (view self.old.records) → Stands (gave_back reservation result ∷ h) (view self.new.records) }
        ensures growth { (h : Deeds) → Grows h (view self.old.records) → Grows (deed.gave_back reservation result ∷ h) (view self.new.records) }
    {
        self.try_give_back(reservation)
    }

    // Takes a child out of the children of `parent`: yes if it was one.
    pub fn delete_child(
        &mut self,
        parent: UnitEntryId,
        child: UnitEntryId,
    ) -> Result<bool, EditFault>
        ensures outcome { (view self.new.records, result) ≡ delete_child (view self.old.records) parent child }
        ensures declined { is_ok result ≡ false → self.new ≡ self.old }
        ensures absent { result ≡ Ok false → self.new ≡ self.old }
        ensures law { (h : History) → Stands h (view self.old.records) → Stands (child_deleted parent child result ∷ h) (view self.new.records) }
        ensures growth { (h : Deeds) → Grows h (view self.old.records) → Grows (deed.child_deleted parent child result ∷ h) (view self.new.records) }
    {
        self.try_delete_child(parent, child)
    }

    // Sets or clears the sibling flag.
    pub fn set_sibling(&mut self, id: UnitEntryId, sibling: bool) -> Result<(), EditFault>
        ensures outcome { (view self.new.records, result) ≡ set_sibling (view self.old.records) id sibling }
        ensures declined { is_ok result ≡ false → self.new ≡ self.old }
        ensures law { (h : History) → Stands h (view self.old.records) → Stands (edited result ∷ h) (view self.new.records) }
        ensures growth { (h : Deeds) → Grows h (view self.old.records) → Grows (deed.sibling_set id sibling result ∷ h) (view self.new.records) }
    {
        self.try_set_sibling(id, sibling)
    }

    // Sets an attribute: its value is replaced where its name stands, or it is appended.
    pub fn set(
        &mut self,
        id: UnitEntryId,
        name: u16,
        value: AttributeValue,
    ) -> Result<(), EditFault>
        ensures outcome { (view self.new.records, result) ≡ set_attribute (view self.old.records) id name value }
        ensures declined { is_ok result ≡ false → self.new ≡ self.old }
        ensures law { (h : History) → Stands h (view self.old.records) → Stands (edited result ∷ h) (view self.new.records) }
        ensures growth { (h : Deeds) → Grows h (view self.old.records) → Grows (deed.attribute_set id name value result ∷ h) (view self.new.records) }
    {
        self.try_set(id, name, value)
    }

    // Drops an attribute, if the entry has it; its record is free again.
    pub fn delete(&mut self, id: UnitEntryId, name: u16) -> Result<(), EditFault>
        ensures outcome { (view self.new.records, result) ≡ delete_attribute (view self.old.records) id name }
        ensures declined { is_ok result ≡ false → self.new ≡ self.old }
        ensures law { (h : History) → Stands h (view self.old.records) → Stands (edited result ∷ h) (view self.new.records) }
        ensures growth { (h : Deeds) → Grows h (view self.old.records) → Grows (deed.attribute_deleted id name result ∷ h) (view self.new.records) }
    {
        self.try_delete(id, name)
    }

    // Closes the session: every later edit is declined.
    pub fn close(&mut self)
        ensures outcome { view self.new.records ≡ close_session (view self.old.records) }
        ensures law { (h : History) → Stands h (view self.old.records) → Stands h (view self.new.records) }
        ensures growth { (h : Deeds) → Grows h (view self.old.records) → Grows h (view self.new.records) }
    {
        self.records.closed = true;
    }

    // Marks a unit written: yes if the table has it. Every later edit of it is declined.
    pub fn mark_written(&mut self, unit: UnitId) -> bool
        ensures outcome { (view self.new.records, result) ≡ written_if (view self.old.records) unit }
        ensures declined { result ≡ false → self.new ≡ self.old }
        ensures law { (h : History) → Stands h (view self.old.records) → Stands h (view self.new.records) }
        ensures growth { (h : Deeds) → Grows h (view self.old.records) → Grows h (view self.new.records) }
    {
        if !self.knows_unit(unit) {
            return false;
        }
        self.records.mark(unit.unit as usize);
        true
    }

    // A unit's record.
    pub fn unit(&self, id: UnitId) -> Option<UnitRecord>
        ensures { result ≡ unit_if (view self.now.records) id }
    {
        self.unit_record(id)
    }

    // How many units there are.
    pub fn count(&self) -> usize
        ensures { result ≡ length (view self.now.records).units }
    {
        self.records.unit_count
    }

    // An entry's tag, and its sibling flag. While it waits its tag is 0, which is none in DWARF.
    pub fn entry(&self, id: UnitEntryId) -> Option<(u16, bool)>
        ensures { result ≡ tag_if (view self.now.records) id }
    {
        let entry = self.entry_record(id)?;
        Some((entry.tag, entry.sibling))
    }

    // Notes where a write put an entry's code down, and which code: yes if the table knows the entry.
    pub fn set_note(&mut self, id: UnitEntryId, note: Note) -> bool
        ensures outcome { (view self.new.records, result) ≡ note_if (view self.old.records) id note }
        ensures declined { result ≡ false → self.new ≡ self.old }
        ensures law { (h : History) → Stands h (view self.old.records) → Stands h (view self.new.records) }
        ensures growth { (h : Deeds) → Grows h (view self.old.records) → Grows h (view self.new.records) }
    {
        if !self.knows(id) {
            return false;
        }
        self.records.jot(id.entry as usize, note);
        true
    }

    // What the last write noted of an entry.
    pub fn note(&self, id: UnitEntryId) -> Option<Note>
        ensures { result ≡ note_of (view self.now.records) id }
    {
        Some(self.entry_record(id)?.note)
    }
}
