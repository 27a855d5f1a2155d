ghost use Rattle.std.specs.Prelude.{◌≡◌, ℕ, ◌+◌, ◌-◌, ◌<◌, not, [], ◌∷◌, ◌++◌, ◌==◌};
ghost use Rattle.trees.specs.Attributes.{lists, records_of, Loose, Sought, FoundAt};
ghost use Rattle.trees.specs.Lists.{last_or, nil};
ghost use Rattle.trees.specs.Model.{span_of, amended, with_spare, put, unname};
ghost use Rattle.trees.specs.View.{view};

use crate::records::{Attribute, AttributeRecord, AttributeValue, NIL, Records, Span};

impl AttributeValue {
    // The part of the pool that the value is, if it is one.
    pub(crate) fn span(self) -> Option<Span>
        ensures { result ≡ span_of self }
    {
        match self {
            AttributeValue::Block(span)
            | AttributeValue::Exprloc(span)
            | AttributeValue::String(span) => Some(span),
            _ => None,
        }
    }
}

// Where a name stands among an entry's attributes: at a record, after another, or first, after NIL.
#[derive(Clone, Copy)]
pub(crate) struct Place {
    pub(crate) before: u16,
    pub(crate) at: u16,
}

impl<'a> Records<'a> {
    // Seeks a name among the attributes of an entry: where it stands, or the last of them, after which
    // it would go. The loop keeps the link before, which a cursor over the chain does not have.
    pub(crate) fn find(&self, e: usize, name: u16) -> Result<Place, u16>
        requires used { e < self.now.entry_count }
        ensures { Sought self.now e name result }
    {
        let mut before = NIL;
        let mut at = self.entries[e].attribute;
        loop {
            if at == NIL {
                return Err(before);
            }
            if self.attributes[at as usize].attribute.name == name {
                return Ok(Place { before, at });
            }
            before = at;
            at = self.attributes[at as usize].next;
        }
    }

    // Whether a record is left for an attribute.
    pub(crate) fn has_spare(&self) -> bool
        ensures { result ≡ not ((view self.now).attributes_left == 0) }
    {
        self.free != NIL || self.attribute_count < self.attributes.len()
    }

    // Takes a record that was dropped, or one never used.
    fn take(&mut self) -> u16
        requires room { 0 < (view self.old).attributes_left }
        ensures view { view self.new ≡ with_spare (view self.old) ((view self.old).attributes_left - 1) }
        ensures loose { Loose self.new result }
        ensures small { result < self.new.attribute_count }
        ensures lists { (e : ℕ) → e < self.old.entry_count → records_of self.new e ≡ records_of self.old e }
        ensures count { self.new.entry_count ≡ self.old.entry_count }
    {
        let a = self.free;
        if a == NIL {
            let k = self.attribute_count;
            self.attribute_count = k + 1;
            return k as u16;
        }
        self.free = self.attributes[a as usize].next;
        a
    }

    // A record that stands in no list is free again.
    fn drop_record(&mut self, a: usize)
        requires small { a < self.old.attribute_count }
        requires loose { Loose self.old a }
        ensures view { view self.new ≡ with_spare (view self.old) ((view self.old).attributes_left + 1) }
    {
        let old = self.attributes[a];
        self.attributes[a] = AttributeRecord {
            owner: NIL,
            next: self.free,
            ..old
        };
        self.free = a as u16;
    }

    // A record that stands in no list becomes the last of an entry's.
    fn link(&mut self, e: usize, before: u16, a: usize, attribute: Attribute)
        requires used { e < self.old.entry_count }
        requires small { a < self.old.attribute_count }
        requires loose { Loose self.old a }
        requires last { before ≡ last_or nil (records_of self.old e) }
        ensures view { view self.new ≡ amended (view self.old) e (λ xs. xs ++ attribute ∷ []) (view self.old).attributes_left }
    {
        self.attributes[a] = AttributeRecord {
            attribute,
            owner: e as u16,
            next: NIL,
        };
        if before == NIL {
            self.entries[e].attribute = a as u16;
        } else {
            self.attributes[before as usize].next = a as u16;
        }
    }

    // A record leaves an entry's list.
    fn unlink(&mut self, e: usize, place: Place)
        requires used { e < self.old.entry_count }
        requires found { (name : ℕ) × FoundAt self.old e name place }
        ensures view { (name : ℕ) → FoundAt self.old e name place → view self.new ≡ amended (view self.old) e (unname name) (view self.old).attributes_left }
        ensures loose { Loose self.new place.at }
        ensures small { place.at < self.new.attribute_count }
    {
        let next = self.attributes[place.at as usize].next;
        if place.before == NIL {
            self.entries[e].attribute = next;
        } else {
            self.attributes[place.before as usize].next = next;
        }
    }

    // The attribute of a name is replaced where it stands.
    pub(crate) fn replace(&mut self, e: usize, place: Place, attribute: Attribute)
        requires used { e < self.old.entry_count }
        requires found { FoundAt self.old e attribute.name place }
        ensures view { view self.new ≡ amended (view self.old) e (put attribute) (view self.old).attributes_left }
    {
        self.attributes[place.at as usize].attribute = attribute;
    }

    // An attribute becomes the last of an entry.
    pub(crate) fn append(&mut self, e: usize, before: u16, attribute: Attribute)
        requires used { e < self.old.entry_count }
        requires room { 0 < (view self.old).attributes_left }
        requires last { before ≡ last_or nil (records_of self.old e) }
        ensures view { view self.new ≡ amended (view self.old) e (λ xs. xs ++ attribute ∷ []) ((view self.old).attributes_left - 1) }
    {
        let a = self.take();
        self.link(e, before, a as usize, attribute);
    }

    // The attribute of a name is dropped, and its record is free again.
    pub(crate) fn remove(&mut self, e: usize, place: Place)
        requires used { e < self.old.entry_count }
        requires found { (name : ℕ) × FoundAt self.old e name place }
        ensures view { (name : ℕ) → FoundAt self.old e name place → view self.new ≡ amended (view self.old) e (unname name) ((view self.old).attributes_left + 1) }
    {
        self.unlink(e, place);
        self.drop_record(place.at as usize);
    }
}
