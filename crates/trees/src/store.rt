ghost use Rattle.std.specs.Prelude.{◌≡◌, ◌+◌, ◌<◌, ◌≤◌, false, length, if◌then◌else◌, MatchOption, nat_eq, slice_index_or, slice_set};
ghost use Rattle.trees.specs.Lists.{has, kids, Before};
ghost use Rattle.trees.specs.Model.{is_waiting, is_given_back, with_entries, change, left, flagged, place, take_out, grant, open_unit, mark_written, as_written, noted, no_unit};
ghost use Rattle.trees.specs.Stores.{modify, with_sibling, with_state, jotted, fresh_record, linked_first, linked_after, unlinked_first, unlinked_after};
ghost use Rattle.trees.specs.View.{view, blank, kin};
ghost use Rattle.trees.specs.declared.records.State.TheVariants.{Waiting, GivenBack};

use crate::records::{Encoding, EntryRecord, LineProgram, NIL, Note, Records, State, UnitRecord};

// Tests with contracts of their own: what is wrong in one is told here, and not in each caller's proof.
impl State {
    pub fn is_waiting(self) -> bool
        ensures { result ≡ is_waiting self }
    {
        matches!(self, State::Waiting)
    }

    pub fn is_given_back(self) -> bool
        ensures { result ≡ is_given_back self }
    {
        matches!(self, State::GivenBack)
    }
}

// An entry is named by its index, which each step asks to be in use: a type for such an index would
// have to name the records that it was found in, and no longer fit them after the next step.
impl<'a> Records<'a> {
    // Sets or clears the sibling flag of an entry.
    pub(crate) fn flag(&mut self, e: usize, sibling: bool)
        requires used { e < self.old.entry_count }
        ensures view { view self.new ≡ with_entries (view self.old) (change e (flagged sibling) (view self.old).entries) }
    {
        store_flag(self.entries, e, sibling);
    }

    // Notes where a write put an entry's code down.
    pub(crate) fn jot(&mut self, e: usize, note: Note)
        requires used { e < self.old.entry_count }
        ensures view { view self.new ≡ with_entries (view self.old) (change e (noted note) (view self.old).entries) }
    {
        store_note(self.entries, e, note);
    }

    // A waiting entry is given back.
    pub(crate) fn retire(&mut self, e: usize)
        requires used { e < self.old.entry_count }
        requires waits { (slice_index_or self.old.entries.now e blank).state ≡ Waiting }
        ensures view { view self.new ≡ with_entries (view self.old) (change e (left GivenBack) (view self.old).entries) }
    {
        store_state(self.entries, e, State::GivenBack);
    }

    // A new entry of a unit, which waits.
    pub(crate) fn grant(&mut self, unit: u16)
        requires unit { unit < self.old.unit_count }
        requires room { self.old.entry_count < length self.old.entries.now }
        ensures view { view self.new ≡ grant (view self.old) unit }
        ensures count { self.new.entry_count ≡ self.old.entry_count + 1 }
    {
        let n = self.entry_count;
        self.entries[n] = fresh(unit, State::Waiting, 0);
        self.entry_count = n + 1;
    }

    // A new unit, with its root.
    pub(crate) fn open_unit(&mut self, encoding: Encoding, line: Option<LineProgram>)
        requires units { self.old.unit_count < length self.old.units.now }
        requires room { self.old.entry_count < length self.old.entries.now }
        ensures view { view self.new ≡ open_unit (view self.old) encoding line }
    {
        let m = self.unit_count;
        let n = self.entry_count;
        self.units[m] = UnitRecord {
            encoding,
            line,
            root: n as u16,
            written: false,
        };
        self.entries[n] = fresh(m as u16, State::Root, 0x11);
        self.unit_count = m + 1;
        self.entry_count = n + 1;
    }

    // A unit is written.
    pub(crate) fn mark(&mut self, u: usize)
        requires used { u < self.old.unit_count }
        ensures view { view self.new ≡ mark_written (view self.old) u }
    {
        store_written(self.units, u);
    }

    // A waiting entry becomes the last child of an entry of its unit.
    pub(crate) fn place(&mut self, c: usize, p: usize, tag: u16)
        requires child { c < self.old.entry_count }
        requires parent { p < self.old.entry_count }
        requires waits { (slice_index_or self.old.entries.now c blank).state ≡ Waiting }
        requires same { (slice_index_or self.old.entries.now c blank).unit ≡ (slice_index_or self.old.entries.now p blank).unit }
        ensures view { view self.new ≡ place (view self.old) c p tag }
    {
        let last = self.entries[p].last;
        if last == NIL {
            link_first(self.entries, c, p, tag);
        } else {
            link_after(self.entries, c, p, last as usize, tag);
        }
    }

    // A child of p is taken out; `before` stands before it.
    pub(crate) fn take_out(&mut self, p: usize, c: usize, before: u16)
        requires parent { p < self.old.entry_count }
        requires before { Before (kin self.old.entries.now self.old.entry_count) (length self.old.entries.now) p c before }
        ensures view { view self.new ≡ take_out (view self.old) p c }
    {
        if before == NIL {
            unlink_first(self.entries, c, p);
        } else {
            unlink_after(self.entries, c, p, before as usize);
        }
    }

    // The child that stands before c among those of p, NIL before the first, as the links have it; none if c is no
    // child of p. The loop keeps the link before, which a cursor over the chain does not have.
    pub(crate) fn before(&self, p: usize, c: u16) -> Option<u16>
        requires parent { p < self.now.entry_count }
        ensures { MatchOption result (has c (kids (kin self.now.entries.now self.now.entry_count) (length self.now.entries.now) p) ≡ false)
            (λ l. Before (kin self.now.entries.now self.now.entry_count) (length self.now.entries.now) p c l) }
    {
        let mut prev = NIL;
        let mut cur = self.entries[p].first;
        loop {
            if cur == NIL {
                return None;
            }
            if cur == c {
                return Some(prev);
            }
            prev = cur;
            cur = self.entries[cur as usize].next;
        }
    }
}

// The stores, one or a few each, said record by record: thin functions that prove themselves, where
// one that takes a closure makes each caller prove again what the closure stored.

fn store_flag(entries: &mut [EntryRecord], e: usize, sibling: bool)
    requires { e < length entries.old }
    ensures { entries.new ≡ modify entries.old e (with_sibling sibling) }
{
    entries[e].sibling = sibling;
}

fn store_note(entries: &mut [EntryRecord], e: usize, note: Note)
    requires { e < length entries.old }
    ensures { entries.new ≡ modify entries.old e (jotted note) }
{
    entries[e].note = note;
}

fn store_state(entries: &mut [EntryRecord], e: usize, state: State)
    requires { e < length entries.old }
    ensures { entries.new ≡ modify entries.old e (with_state state) }
{
    entries[e].state = state;
}

fn store_written(units: &mut [UnitRecord], u: usize)
    requires { u < length units.old }
    ensures { units.new ≡ slice_set units.old u (as_written (slice_index_or units.old u no_unit)) }
{
    units[u].written = true;
}

// An entry that no list holds.
fn fresh(unit: u16, state: State, tag: u16) -> EntryRecord
    ensures { result ≡ fresh_record unit state tag }
{
    EntryRecord {
        unit,
        state,
        tag,
        sibling: false,
        parent: NIL,
        first: NIL,
        last: NIL,
        next: NIL,
        attribute: NIL,
        note: Note { offset: 0, code: 0 },
    }
}

pub(crate) fn pick<T: Copy>(x: u16, a: T, b: T) -> T
    ensures { result ≡ (if nat_eq x 65535 then a else b) }
{
    if x == NIL { a } else { b }
}

fn link_first(entries: &mut [EntryRecord], c: usize, p: usize, tag: u16)
    requires { (c < length entries.old) × ((p < length entries.old) × (length entries.old ≤ 65535)) }
    ensures { entries.new ≡ linked_first entries.old c p tag }
{
    let child = entries[c];
    entries[c] = EntryRecord {
        state: State::Placed,
        tag,
        parent: p as u16,
        next: NIL,
        ..child
    };
    let above = entries[p];
    entries[p] = EntryRecord {
        first: c as u16,
        last: c as u16,
        ..above
    };
}

fn link_after(entries: &mut [EntryRecord], c: usize, p: usize, l: usize, tag: u16)
    requires { (c < length entries.old) × ((p < length entries.old) × ((l < length entries.old) × (length entries.old ≤ 65535))) }
    ensures { entries.new ≡ linked_after entries.old c p l tag }
{
    let child = entries[c];
    entries[c] = EntryRecord {
        state: State::Placed,
        tag,
        parent: p as u16,
        next: NIL,
        ..child
    };
    entries[l].next = c as u16;
    entries[p].last = c as u16;
}

fn unlink_first(entries: &mut [EntryRecord], c: usize, p: usize)
    requires { (c < length entries.old) × (p < length entries.old) }
    ensures { entries.new ≡ unlinked_first entries.old c p }
{
    let next = entries[c].next;
    let above = entries[p];
    let last = pick(next, NIL, above.last);
    entries[p] = EntryRecord {
        first: next,
        last,
        ..above
    };
    let child = entries[c];
    entries[c] = EntryRecord {
        state: State::TakenOut,
        parent: NIL,
        next: NIL,
        ..child
    };
}

fn unlink_after(entries: &mut [EntryRecord], c: usize, p: usize, l: usize)
    requires { (c < length entries.old) × ((p < length entries.old) × ((l < length entries.old) × (length entries.old ≤ 65535))) }
    ensures { entries.new ≡ unlinked_after entries.old c p l }
{
    let next = entries[c].next;
    entries[l].next = next;
    let above = entries[p];
    let after = entries[c].next;
    let last = pick(after, l as u16, above.last);
    entries[p] = EntryRecord { last, ..above };
    let child = entries[c];
    entries[c] = EntryRecord {
        state: State::TakenOut,
        parent: NIL,
        next: NIL,
        ..child
    };
}
