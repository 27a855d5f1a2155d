ghost use Rattle.std.specs.Prelude.{◌≡◌, ◌<◌, ◌≤◌, false, ◌≢◌, ◌∷◌, length, if◌then◌else◌};
ghost use Rattle.trees.specs.History.{History, Stands};
ghost use Rattle.trees.specs.Growth.{Deeds, Grows, Deed.bases_moved};
ghost use Rattle.trees.specs.Lists.{Before};
ghost use Rattle.trees.specs.Model.{entry_of};
ghost use Rattle.trees.specs.Moves.{moved_last, settled, detached, attached};
ghost use Rattle.trees.specs.Reorder.{is_base, bases_first, recast, reordered_if};
ghost use Rattle.trees.specs.View.{view, kin};
ghost use Rattle.trees.specs.Reach.{root_in};

use crate::records::{EntryRecord, NIL, Records, UnitId};
use crate::table::UnitTable;

// The tag of a base type.
const DW_TAG_BASE_TYPE: u16 = 0x24;

impl<'a> UnitTable<'a> {
    // Moves the base types among the root's children to the front; both groups keep their order:
    // yes if the table has the unit.
    pub fn reorder_base_types(&mut self, unit: UnitId) -> bool
        ensures outcome { (view self.new.records, result) ≡ reordered_if (view self.old.records) unit }
        ensures declined { result ≡ false → self.new ≡ self.old }
        ensures law { (h : History) → Stands h (view self.old.records) → Stands h (view self.new.records) }
        ensures growth { (h : Deeds) → Grows h (view self.old.records) → Grows (bases_moved (root_in (view self.old.records) unit) result ∷ h) (view self.new.records) }
    {
        if !self.knows_unit(unit) {
            return false;
        }
        let root = self.records.units[unit.unit as usize].root;
        self.records.bases_first(root as usize);
        true
    }
}

impl<'a> Records<'a> {
    // The base types among the children of p move to the front. The list changes under the loop, so no cursor goes
    // over it.
    fn bases_first(&mut self, p: usize)
        requires parent { p < self.old.entry_count }
        ensures view { view self.new ≡ recast (view self.old) p (bases_first (view self.old) (entry_of (view self.old) p).children) }
    {
        let end = self.entries[p].last;
        let mut prev = NIL;
        let mut cur = self.entries[p].first;
        if cur == NIL {
            return;
        }
        loop {
            let next = self.entries[cur as usize].next;
            prev = self.settle(p, cur, prev);
            if cur == end {
                return;
            }
            cur = next;
        }
    }

    // A child of p keeps its place if it is a base type, and else becomes the last; `before` stands
    // before it. The answer is the last base type that keeps its place.
    fn settle(&mut self, p: usize, c: u16, before: u16) -> u16
        requires parent { p < self.old.entry_count }
        requires before { Before (kin self.old.entries.now self.old.entry_count) (length self.old.entries.now) p c before }
        ensures view { view self.new ≡ settled (view self.old) p c }
        ensures kept { result ≡ (if is_base (view self.old) c then c else before) }
    {
        if self.entries[c as usize].tag == DW_TAG_BASE_TYPE {
            return c;
        }
        self.move_last(p, c as usize, before);
        before
    }

    // A child of p becomes its last; `before` stands before it.
    fn move_last(&mut self, p: usize, c: usize, before: u16)
        requires parent { p < self.old.entry_count }
        requires before { Before (kin self.old.entries.now self.old.entry_count) (length self.old.entries.now) p c before }
        ensures view { view self.new ≡ recast (view self.old) p (moved_last c (entry_of (view self.old) p).children) }
    {
        let last = self.entries[p].last;
        if c == last as usize {
            return;
        }
        put_last(self.entries, p, c, before, last as usize);
    }
}

// The list of p, which ends with `last`, has c, its first or the one after `before`, for its last.
fn put_last(entries: &mut [EntryRecord], p: usize, c: usize, before: u16, last: usize)
    requires small { (c < length entries.old) × ((p < length entries.old) × ((last < length entries.old) × (length entries.old ≤ 65535))) }
    requires before { before ≢ 65535 → before < length entries.old }
    ensures { entries.new ≡ attached (detached entries.old p c before) p c last }
{
    detach(entries, p, c, before);
    attach(entries, p, c, last);
}

// The list of p goes past c, which is its first or follows `before`.
fn detach(entries: &mut [EntryRecord], p: usize, c: usize, before: u16)
    requires { (c < length entries.old) × ((p < length entries.old) × ((before ≢ 65535 → before < length entries.old))) }
    ensures { entries.new ≡ detached entries.old p c before }
{
    let next = entries[c].next;
    if before == NIL {
        entries[p].first = next;
    } else {
        entries[before as usize].next = next;
    }
}

// The list of p, which ends with `last`, goes on to c and ends there.
fn attach(entries: &mut [EntryRecord], p: usize, c: usize, last: usize)
    requires { (c < length entries.old) × ((p < length entries.old) × ((last < length entries.old) × (length entries.old ≤ 65535))) }
    ensures { entries.new ≡ attached entries.old p c last }
{
    entries[c].next = NIL;
    entries[last].next = c as u16;
    entries[p].last = c as u16;
}
