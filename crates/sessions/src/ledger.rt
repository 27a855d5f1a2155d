ghost use Rattle.std.specs.Prelude.{◌≡◌, ◌<◌, [], ◌∷◌, ◌++◌, length, slice_index_or, vec_len, vec_capacity, IfOk, IfErr, MatchOption, MatchResult};
ghost use Rattle.trees.specs.History.{times};
ghost use Rattle.sessions.specs.Sessions.{unit_granted, kept_back, reply_of, no_token, IsFree, HeldOf, NotHeldOf, OrderOf, Complains, HasRoom};

use crate::order::{Answer, Order};
use crate::reply::Reply;
use crate::roll::Roll;
use scripts::call::Edit;
use scripts::complaint::Complaint;
use scripts::value::EntryName;
use std::alloc::AllocError;
use trees::{EditFault, Refusal, Reservation, UnitId};

// What a session keeps of its table's answers: the unit of each entry, in the order granted, and the reservations
// that are not spent. These are few, and tokens can be neither copied nor dropped: a list of them, and no map.
pub struct Ledger {
    pub table: u32,
    pub homes: Vec<u32>,
    pub held: Vec<Reservation>,
}

// Where the reservation of an entry is held.
fn held_at(held: &[Reservation], entry: u32) -> Option<usize>
    ensures { MatchOption result (IsFree held.now entry) (λ i. (i < length held.now) × ((slice_index_or held.now i no_token).id.entry ≡ entry)) }
{
    held.iter().position(|it| it.id().entry == entry)
}

impl Ledger {
    // The names of the entries.
    pub fn roll(&self) -> Roll<'_>
        ensures table { result.table ≡ self.now.table }
        ensures homes { result.homes.now ≡ self.now.homes.items }
    {
        Roll {
            table: self.table,
            homes: self.homes.as_slice(),
        }
    }

    // Makes room for what an answer grants, and for what it hands out or back.
    pub(crate) fn make_room(&mut self) -> Result<(), AllocError>
        ensures room { IfOk result (λ _. HasRoom self.new) }
        ensures table { self.new.table ≡ self.old.table }
        ensures homes { self.new.homes.items ≡ self.old.homes.items }
        ensures held { self.new.held.items ≡ self.old.held.items }
    {
        self.homes.reserve(1)?;
        self.held.reserve(1)?;
        Ok(())
    }

    // Names the entry that an answer grants.
    fn grant(&mut self, unit: u32) -> EntryName
        requires { vec_len self.old.homes < vec_capacity self.old.homes }
        ensures name { result ≡ record { unit = unit; entry = times unit self.old.homes.items } }
        ensures homes { self.new.homes.items ≡ self.old.homes.items ++ unit ∷ [] }
        ensures rest { self.new ≡ record self.old { homes = self.new.homes } }
    {
        let entry = self.roll().count(unit);
        self.homes.push_reserved(unit);
        EntryName { unit, entry }
    }

    // Keeps what an answer grants, hands out and hands back, and says it in the script's names.
    pub(crate) fn settle(&mut self, answer: Answer) -> Result<Reply, EditFault>
        requires { HasRoom self.old }
        ensures reply { result ≡ reply_of self.old.homes.items answer }
        ensures homes { self.new.homes.items ≡ self.old.homes.items ++ unit_granted answer }
        ensures held { self.new.held.items ≡ self.old.held.items ++ kept_back answer }
        ensures table { self.new.table ≡ self.old.table }
    {
        match answer {
            Answer::Unit(unit) => {
                let unit = unit?.unit;
                self.homes.push_reserved(unit);
                Ok(Reply::Unit(unit))
            }
            Answer::Reserved(granted) => {
                let (id, reservation) = granted?;
                self.held.push_reserved(reservation);
                Ok(Reply::Id(self.grant(id.unit)))
            }
            Answer::Added(id) => Ok(Reply::Id(self.grant(id?.unit))),
            Answer::ReservedAdded(Ok(())) => Ok(Reply::Done),
            Answer::ReservedAdded(Err(refusal)) => {
                let Refusal { fault, reservation } = refusal;
                self.held.push_reserved(reservation);
                Err(fault)
            }
            Answer::GaveBack(yes) => Ok(Reply::Told(yes)),
            Answer::ChildDeleted(yes) => Ok(Reply::Told(yes?)),
            Answer::Edited(done) => {
                done?;
                Ok(Reply::Done)
            }
        }
    }

    // Takes the reservation of an entry out of those that are held.
    fn take_held(&mut self, name: EntryName) -> Result<Reservation, Complaint>
        ensures held { MatchResult result (HeldOf self.old.homes.items self.old.table self.old.held.items self.new.held.items name) (λ c. (c ≡ Complaint.NotHeld) × NotHeldOf self.old.homes.items self.old.table self.old.held.items name) }
        ensures kept { IfErr result (λ _. self.new ≡ self.old) }
        ensures room { HasRoom self.old → HasRoom self.new }
        ensures rest { self.new ≡ record self.old { held = self.new.held } }
    {
        let id = self.roll().id_of(name);
        let i = held_at(self.held.as_slice(), id.entry).ok_or(Complaint::NotHeld)?;
        Ok(self.held.remove(i))
    }

    // An edit in the table's ids. A reservation that it spends is held no more.
    pub(crate) fn order(&mut self, edit: Edit) -> Result<Order, Complaint>
        ensures order { MatchResult result (OrderOf self.old.homes.items self.old.table self.old.held.items self.new.held.items edit) (Complains self.old.homes.items self.old.table self.old.held.items edit) }
        ensures kept { IfErr result (λ _. self.new ≡ self.old) }
        ensures room { HasRoom self.old → HasRoom self.new }
        ensures rest { self.new ≡ record self.old { held = self.new.held } }
    {
        match edit {
            Edit::Unit(encoding, line) => Ok(Order::Unit(encoding, line)),
            Edit::Reserve(unit) => {
                let table = self.table;
                Ok(Order::Reserve(UnitId { table, unit }))
            }
            Edit::AddReserved { entry, parent, tag } => {
                let reservation = self.take_held(entry)?;
                Ok(Order::AddReserved(reservation, self.roll().id_of(parent), tag))
            }
            Edit::Add { parent, tag } => Ok(Order::Add(self.roll().id_of(parent), tag)),
            Edit::Set { entry, name, value } => {
                let value = self
                    .roll()
                    .in_ids(value)
                    .ok_or(Complaint::UnknownReference)?;
                Ok(Order::Set(self.roll().id_of(entry), name, value))
            }
            Edit::Delete { entry, name } => Ok(Order::Delete(self.roll().id_of(entry), name)),
            Edit::SetSibling { entry, sibling } => {
                Ok(Order::SetSibling(self.roll().id_of(entry), sibling))
            }
            Edit::DeleteChild { parent, child } => {
                let roll = self.roll();
                Ok(Order::DeleteChild(roll.id_of(parent), roll.id_of(child)))
            }
            Edit::GiveBack(entry) => Ok(Order::GiveBack(self.take_held(entry)?)),
        }
    }
}
