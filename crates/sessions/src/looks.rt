ghost use Rattle.std.specs.Prelude.{◌≡◌, IfOk};
ghost use Rattle.trees.specs.Model.{attributes_of, children_of};
ghost use Rattle.trees.specs.View.{view};
ghost use Rattle.trees.specs.Reach.{events_in};

use std::alloc::{AllocError, Global};
use trees::{Attribute, Event, UnitEntryId, UnitId, UnitTable};

// The attributes of an entry, in the order first set.
pub fn attributes(
    heap: Global,
    table: &UnitTable<'_>,
    id: UnitEntryId,
) -> Result<Vec<Attribute>, AllocError>
    ensures { IfOk result (λ v. v.items ≡ attributes_of (view table.now.records) id) }
{
    table.attrs(id).collect(heap)
}

// The children of an entry, in the order added.
pub fn children(
    heap: Global,
    table: &UnitTable<'_>,
    id: UnitEntryId,
) -> Result<Vec<u32>, AllocError>
    ensures { IfOk result (λ v. v.items ≡ children_of (view table.now.records) id) }
{
    table.children(id).map(|child| child.entry).collect(heap)
}

// The steps of the walk through the tree of a unit.
pub fn events(heap: Global, table: &UnitTable<'_>, unit: UnitId) -> Result<Vec<Event>, AllocError>
    ensures { IfOk result (λ v. v.items ≡ events_in (view table.now.records) unit) }
{
    table.walk(unit).collect(heap)
}
