ghost use Rattle.std.specs.Prelude.{◌≡◌, [], length};
ghost use Rattle.trees.specs.Growth.{Tells};
ghost use Rattle.trees.specs.Model.{new_table};
ghost use Rattle.trees.specs.View.{view};
ghost use Rattle.sessions.specs.Tables.{units_in, Leads, after_giving_back};

use crate::ledger::Ledger;
use std::alloc::Global;
use trees::{AttributeRecord, EntryRecord, UnitRecord, UnitTable};

// A table, with what is kept of its answers: the units kept are those of its entries.
pub struct Session<'a> {
    pub table: UnitTable<'a>,
    pub ledger: Ledger,
    ghost units: { ledger.homes.items ≡ units_in (view table.records).entries },
}

impl<'a> Session<'a> {
    // A session at its start: an empty table of a number, over the caller's memory.
    pub fn new(
        heap: Global,
        number: u32,
        units: &'a mut [UnitRecord],
        entries: &'a mut [EntryRecord],
        attributes: &'a mut [AttributeRecord],
        pool: &'a [u8],
    ) -> Session<'a>
        ensures number { result.ledger.table ≡ number }
        ensures held { result.ledger.held.items ≡ [] }
        ensures tells { Tells [] (view result.table.records) }
        ensures empty { view result.table.records ≡ new_table number (length units.old) (length entries.old) (length attributes.old) pool.now }
    {
        Session {
            table: UnitTable::new(number, units, entries, attributes, pool),
            ledger: Ledger {
                table: number,
                homes: Vec::new(heap),
                held: Vec::new(heap),
            },
        }
    }

    // Ends the session: gives back all that is held, so that nothing is left but the table.
    pub fn end(self) -> UnitTable<'a>
        ensures tells { Leads (view self.entry.table.records) (view result.records) }
        ensures outcome { view result.records ≡ after_giving_back self.entry.ledger.held.items (view self.entry.table.records) }
    {
        let Session { mut table, ledger } = self;
        let Ledger {
            table: _,
            homes: _,
            mut held,
        } = ledger;
        // Tokens are taken out one by one, since none can be dropped.
        while let Some(reservation) = held.pop() {
            let _ = table.give_back(reservation);
        }
        held.destroy_empty();
        table
    }
}
