use crate::samples::{
    ATTRIBUTE, DW_AT_BYTE_SIZE, DW_AT_NAME, DW_TAG_VARIABLE, ENCODING, ENTRY, TABLE, UNIT, entry,
    unit,
};
use std::test::Fail;
use trees::{AttributeValue, EditFault, Left, Span, UnitTable};

// One record of each kind: the first unit and its root take theirs, and there is none for more.
#[test]
fn last_unit_and_last_entry(rt: HostRuntime) -> Result<(), Fail> {
    let mut units = [UNIT; 1];
    let mut entries = [ENTRY; 1];
    let mut attributes = [ATTRIBUTE; 1];
    let mut table = UnitTable::new(TABLE, &mut units, &mut entries, &mut attributes, b"axis");
    let before = Left {
        units: 1,
        entries: 1,
        attributes: 1,
    };
    assert_eq!(rt; table.left(), before);
    assert_eq!(rt; table.add(ENCODING, None), Ok(unit(0)));
    let after = Left {
        units: 0,
        entries: 0,
        attributes: 1,
    };
    assert_eq!(rt; table.left(), after);
    assert_eq!(rt; table.add(ENCODING, None), Err(EditFault::TableFull));
    assert_eq!(rt;
        table.add_entry(entry(0), DW_TAG_VARIABLE),
        Err(EditFault::TableFull)
    );
    match table.reserve(unit(0)) {
        Err(fault) => assert_eq!(rt; fault, EditFault::TableFull),
        Ok((_, reservation)) => {
            let _ = table.give_back(reservation);
            return Err(Fail::new("an entry past the last"));
        }
    }
    let counts = table.counts();
    assert!(rt; counts.waiting == 0 && counts.placed == 0 && counts.given_back == 0);
    Ok(())
}

// The last attribute record is taken, replaced in place, freed and taken again.
#[test]
fn last_attribute(rt: HostRuntime) {
    let mut units = [UNIT; 1];
    let mut entries = [ENTRY; 1];
    let mut attributes = [ATTRIBUTE; 1];
    let mut table = UnitTable::new(TABLE, &mut units, &mut entries, &mut attributes, b"axis");
    let _ = table.add(ENCODING, None);
    let root = entry(0);
    assert!(rt;
        table
            .set(
                root,
                DW_AT_NAME,
                AttributeValue::String(Span { start: 0, len: 4 }),
            )
            .is_ok()
    );
    assert_eq!(rt; table.left().attributes, 0);
    let full = Err(EditFault::TableFull);
    assert_eq!(rt;
        table.set(root, DW_AT_BYTE_SIZE, AttributeValue::Data1(4)),
        full
    );
    assert!(rt;
        table
            .set(root, DW_AT_NAME, AttributeValue::Udata(1))
            .is_ok()
    );
    assert!(rt; table.delete(root, DW_AT_BYTE_SIZE).is_ok());
    assert_eq!(rt; table.left().attributes, 0);
    assert!(rt; table.delete(root, DW_AT_NAME).is_ok());
    assert_eq!(rt; table.left().attributes, 1);
    assert!(rt;
        table
            .set(root, DW_AT_BYTE_SIZE, AttributeValue::Data1(4))
            .is_ok()
    );
    assert!(rt; matches!(table.attrs(root).next(), Some(a) if a.name == DW_AT_BYTE_SIZE));
    assert_eq!(rt; table.set(root, DW_AT_NAME, AttributeValue::Udata(1)), full);
}

// A part of the pool may end where the pool ends, and not past it.
#[test]
fn end_of_the_pool(rt: HostRuntime) {
    let mut units = [UNIT; 1];
    let mut entries = [ENTRY; 1];
    let mut attributes = [ATTRIBUTE; 1];
    let mut table = UnitTable::new(TABLE, &mut units, &mut entries, &mut attributes, b"axis");
    let _ = table.add(ENCODING, None);
    let root = entry(0);
    assert!(rt;
        table
            .set(
                root,
                DW_AT_NAME,
                AttributeValue::Block(Span { start: 4, len: 0 }),
            )
            .is_ok()
    );
    let past = AttributeValue::Block(Span { start: 5, len: 0 });
    assert_eq!(rt;
        table.set(root, DW_AT_NAME, past),
        Err(EditFault::SpanOutOfBounds)
    );
    let long = AttributeValue::String(Span {
        start: 1,
        len: usize::MAX,
    });
    assert_eq!(rt;
        table.set(root, DW_AT_NAME, long),
        Err(EditFault::SpanOutOfBounds)
    );
}
