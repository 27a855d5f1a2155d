ghost use Rattle.std.specs.Prelude.{◌≡◌, ◌∷◌};
ghost use Rattle.trees.specs.History.{History, Stands};
ghost use Rattle.trees.specs.Growth.{Deeds, Grows};
ghost use Rattle.trees.specs.View.{view};
ghost use Rattle.sessions.specs.Orders.{carried, act_of, deed_of};

use crate::order::{Answer, Order};
use trees::UnitTable;

// Carries an order out on a table.
pub fn apply(table: &mut UnitTable<'_>, order: Order) -> Answer
    ensures outcome { (view table.new.records, result) ≡ carried (view table.old.records) order }
    ensures law { (h : History) → Stands h (view table.old.records) → Stands (act_of (view table.old.records) order ∷ h) (view table.new.records) }
    ensures growth { (h : Deeds) → Grows h (view table.old.records) → Grows (deed_of (view table.old.records) order ∷ h) (view table.new.records) }
{
    match order {
        Order::Unit(encoding, line) => Answer::Unit(table.add(encoding, line)),
        Order::Reserve(unit) => Answer::Reserved(table.reserve(unit)),
        Order::AddReserved(reservation, parent, tag) => {
            Answer::ReservedAdded(table.add_reserved(reservation, parent, tag))
        }
        Order::Add(parent, tag) => Answer::Added(table.add_entry(parent, tag)),
        Order::Set(id, name, value) => Answer::Edited(table.set(id, name, value)),
        Order::Delete(id, name) => Answer::Edited(table.delete(id, name)),
        Order::SetSibling(id, sibling) => Answer::Edited(table.set_sibling(id, sibling)),
        Order::DeleteChild(parent, child) => Answer::ChildDeleted(table.delete_child(
            parent, child,
        )),
        Order::GiveBack(reservation) => Answer::GaveBack(table.give_back(reservation)),
    }
}
