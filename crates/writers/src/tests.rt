use super::*;
use numbers::{Address, BigEndian, Format, RunTimeEndian, SectionId};
use std::process::Abort;
use std::test::Fail;

fn header<L: LinkWriter>(w: &mut L) -> Result<(), Fault> {
    write_number(w, 4u16)?;
    w.write_offset(0x21, SectionId::DebugAbbrev, 4)?;
    write_number(w, 8u8)
}

// A unit's header through any pile.
fn unit<L: LinkWriter>(w: &mut L) -> Result<(), Fault> {
    let opened = write_initial_length(w, Format::Dwarf32)?;
    if let Err(e) = header(w) {
        opened.give_up();
        return Err(e);
    }
    write_initial_length_at(w, opened, 7)
}

// Whether the constant says what the method answers.
fn agrees<L: LinkWriter>(w: &L) -> bool {
    L::RELOCATES == w.is_relocating()
}

// Three layers over any writer.
fn piled<L: LinkWriter + Contents + Drop>(rt: &impl Abort, w: L) -> Result<(), Fault> {
    assert!(rt; agrees(&w));
    let mut w = Quota::new(Relocating::new(Quota::new(w, 13)), 32);
    assert!(rt; agrees(&w));
    unit(&mut w)?;
    assert!(rt; w.is_relocating());
    assert_eq!(rt; w.bytes().len(), 11);
    assert_eq!(rt; w.left(), 2);
    assert_eq!(rt; w.notes().len(), 1);
    assert_eq!(rt; w.notes()[0].place, 6);
    assert_eq!(rt; w.notes()[0].addend, 0x21);
    assert_eq!(rt; w.write_reference(5, 9), Err(Fault::UnsupportedWordSize(9)));
    assert_eq!(rt; w.write_reference(5, 4), Err(Fault::SectionFull));
    w.write_offset_at(6, 9, SectionId::DebugStr, 4)?;
    assert_eq!(rt; w.notes().len(), 1);
    assert_eq!(rt; w.notes()[0].addend, 9);
    Ok(())
}

#[test]
fn three_layers(rt: HostRuntime) -> Result<(), Fail> {
    let mut memory = [0xee; 64];
    piled(&rt, SliceWriter::new(&mut memory, RunTimeEndian::Little))?;
    piled(&rt, PageWriter::new(BigEndian))?;
    Ok(())
}

#[test]
fn plain(rt: HostRuntime) -> Result<(), Fail> {
    let mut w = Quota::new(PageWriter::new(BigEndian), 11);
    unit(&mut w)?;
    assert_eq!(rt; w.bytes(), [0, 0, 0, 7, 0, 4, 0, 0, 0, 0x21, 8].as_slice());
    let symbol = Address::Symbol {
        symbol: 1,
        addend: 0,
    };
    assert_eq!(rt; w.write_address(symbol, 9), Err(Fault::InvalidAddress));
    assert_eq!(rt;
        w.write_address(Address::Constant(1), 1),
        Err(Fault::SectionFull)
    );
    Ok(())
}
