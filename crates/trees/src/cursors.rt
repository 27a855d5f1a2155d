ghost use Rattle.std.specs.Prelude.{◌≡◌};

use crate::chain::Chain;
use crate::records::{Attribute, AttributeRecord, EntryRecord, UnitEntryId};
use crate::table::UnitTable;

// The children of an entry, one by one.
#[derive(Drop)]
pub struct Children<'a> {
    chain: Chain<'a, EntryRecord>,
    table: u32,
    unit: u32,
}

// The attributes of an entry, one by one.
#[derive(Drop)]
pub struct Attrs<'a> {
    chain: Chain<'a, AttributeRecord>,
}

impl<'a> UnitTable<'a> {
    ghost use Rattle.trees.specs.Left.{siblings_left, ChildrenInOrder, attributes_left, AttributesInOrder};
    ghost use Rattle.trees.specs.Model.{children_of, attributes_of};
    ghost use Rattle.trees.specs.View.{view};

    // The children of an entry in their order, and none of an id that is not known.
    pub fn children(&self, id: UnitEntryId) -> Children<'_>
        ensures list { siblings_left result ≡ children_of (view self.now.records) id }
        ensures table { result.table ≡ id.table }
        ensures unit { result.unit ≡ id.unit }
        ensures runs { ChildrenInOrder }
    {
        Children {
            chain: Chain::new(&*self.records.entries, self.first_child(id)),
            table: id.table,
            unit: id.unit,
        }
    }

    // The attributes of an entry in the order first set, and none of an id that is not known.
    pub fn attrs(&self, id: UnitEntryId) -> Attrs<'_>
        ensures list { attributes_left result ≡ attributes_of (view self.now.records) id }
        ensures runs { AttributesInOrder }
    {
        Attrs {
            chain: Chain::new(&*self.records.attributes, self.first_attribute(id)),
        }
    }
}

impl<'a> Iterator for Children<'a> {
    ghost use Rattle.std.specs.Iterator.{item_count};
    ghost use Rattle.trees.specs.Left.{siblings_left, ChildSteps};

    type Item = UnitEntryId;

    ghost next_gives = { ChildSteps };

    ghost remaining = { item_count siblings_left };

    fn next(&mut self) -> Option<UnitEntryId> {
        let (entry, _) = self.chain.next()?;
        Some(UnitEntryId {
            table: self.table,
            unit: self.unit,
            entry: entry as u32,
        })
    }
}

impl<'a> Iterator for Attrs<'a> {
    ghost use Rattle.std.specs.Iterator.{item_count};
    ghost use Rattle.trees.specs.Left.{attributes_left, AttributeSteps};

    type Item = Attribute;

    ghost next_gives = { AttributeSteps };

    ghost remaining = { item_count attributes_left };

    fn next(&mut self) -> Option<Attribute> {
        let (_, record) = self.chain.next()?;
        Some(record.attribute)
    }
}
