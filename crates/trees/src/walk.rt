ghost use Rattle.std.specs.Prelude.{◌≡◌, ◌≤◌, length};
ghost use Rattle.trees.specs.Walk.{Ending};

use crate::records::{EntryRecord, Event, NIL, UnitId};
use crate::store::pick;
use crate::table::UnitTable;

// Where a walk stands: before an entry and those below it, or after them.
#[derive(Clone, Copy)]
enum Spot {
    Before(u16),
    After(u16),
}

// A walk through the tree of a unit, along the links, step by step. Its events are said over the whole memory, of
// which `count` records are in use.
#[derive(Drop)]
pub struct Walk<'a> {
    entries: &'a [EntryRecord],
    count: usize,
    root: u16,
    spot: Spot,
    ghost inside: { count ≤ length entries.now },
    ghost ending: { Ending entries.now count root spot },
}

impl<'a> UnitTable<'a> {
    ghost use Rattle.trees.specs.Left.{events_left, EventsInOrder};
    ghost use Rattle.trees.specs.Reach.{events_in, EntersReached};
    ghost use Rattle.trees.specs.View.{view};
    ghost use Rattle.trees.specs.Walk.{unit_events, entered, root_record, Once};

    // The walk from the root of a unit, and a finished one where the unit is not known.
    pub fn walk(&self, unit: UnitId) -> Walk<'_>
        ensures events { events_left result ≡ unit_events self.now.records unit }
        ensures tree { unit_events self.now.records unit ≡ events_in (view self.now.records) unit }
        ensures reached { EntersReached (view self.now.records) unit }
        ensures once { Once (entered (unit_events self.now.records unit)) }
        ensures runs { EventsInOrder }
    {
        let root = self.root_record(unit);
        Walk {
            entries: &*self.records.entries,
            count: self.records.entry_count,
            root,
            spot: Spot::Before(root),
        }
    }

    // The record of a unit's root, NIL where the unit is not known: a link, at which a walk begins,
    // and past the entries it is finished.
    fn root_record(&self, unit: UnitId) -> u16
        ensures { result ≡ root_record self.now.records unit }
    {
        if !self.knows_unit(unit) {
            return NIL;
        }
        self.records.units[unit.unit as usize].root
    }
}

impl<'a> Walk<'a> {
    ghost use Rattle.std.specs.Prelude.{[], ◌∷◌, IfNone, MatchOption};
    ghost use Rattle.trees.specs.declared.walk.Spot.TheVariants.{Before};
    ghost use Rattle.trees.specs.Left.{events_left};
    ghost use Rattle.trees.specs.Walk.{rest};

    // Into an entry: on to its first child, or past it.
    fn enter(&mut self, e: u16) -> Option<Event>
        requires { Ending self.old.entries.now self.old.count self.old.root (Before e) }
        ensures given { MatchOption result (rest self.old.entries.now self.old.count self.old.root (Before e) ≡ [])
            (λ v. rest self.old.entries.now self.old.count self.old.root (Before e) ≡ v ∷ events_left self.new) }
        ensures stays { IfNone result (self.new ≡ self.old) }
        ensures kept { self.new.entries.now ≡ self.old.entries.now }
    {
        if e as usize >= self.count {
            return None;
        }
        let first = self.entries[e as usize].first;
        self.spot = pick(first, Spot::After(e), Spot::Before(first));
        Some(Event::Enter(e))
    }
}

impl<'a> Iterator for Walk<'a> {
    ghost use Rattle.std.specs.Iterator.{item_count};
    ghost use Rattle.trees.specs.Left.{events_left, EventSteps};

    type Item = Event;

    ghost next_gives = { EventSteps };

    ghost remaining = { item_count events_left };

    fn next(&mut self) -> Option<Event> {
        match self.spot {
            Spot::Before(e) => self.enter(e),
            Spot::After(e) => {
                if e as usize >= self.count || e == self.root {
                    return None;
                }
                let record = self.entries[e as usize];
                if record.next != NIL {
                    return self.enter(record.next);
                }
                self.spot = Spot::After(record.parent);
                Some(Event::Leave(record.parent))
            }
        }
    }
}
