use super::scene::Scene;
use scripts::Look;
use sessions::{Said, attributes, children};
use std::io;
use trees::{EditFault, UnitEntryId};

pub fn print_declined(rt: &HostRuntime, fault: EditFault) -> io::Result<()> {
    let number = fault.number();
    println!(rt; "declined {number}")
}

impl Scene<'_, '_> {
    // Looks at an entry: one that the table does not know is declined.
    pub fn look(self, look: Look) -> io::Result<()> {
        let (Look::Attrs(name) | Look::Children(name) | Look::Entry(name)) = look;
        let id = self.roll().id_of(name);
        let Some((tag, sibling)) = self.table().entry(id) else {
            return print_declined(self.rt, EditFault::UnknownId);
        };
        match look {
            Look::Attrs(_) => self.look_at_attributes(id),
            Look::Children(_) => self.look_at_children(id),
            Look::Entry(_) => {
                let flag = sibling as u8;
                println!(self.rt; "entry {tag} {flag}")
            }
        }
    }

    fn look_at_attributes(self, id: UnitEntryId) -> io::Result<()> {
        let found = attributes(self.rt.alloc(), self.table(), id)?;
        let count = found.len();
        print!(self.rt; "attrs {count}")?;
        for attribute in found.as_slice() {
            let name = attribute.name;
            let value = Said {
                value: attribute.value,
                pool: self.pool,
                roll: self.roll(),
            };
            print!(self.rt; " | {name} {value}")?;
        }
        println!(self.rt; "")
    }

    fn look_at_children(self, id: UnitEntryId) -> io::Result<()> {
        let found = children(self.rt.alloc(), self.table(), id)?;
        let count = found.len();
        print!(self.rt; "children {count}")?;
        for child in found.as_slice() {
            if let Some(name) = self.roll().name_of(*child as usize) {
                let entry = name.entry;
                print!(self.rt; " {entry}")?;
            }
        }
        println!(self.rt; "")
    }
}
