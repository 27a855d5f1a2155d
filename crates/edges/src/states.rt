use crate::samples::{
    ATTRIBUTE, DW_AT_NAME, DW_TAG_VARIABLE, ENCODING, ENTRY, TABLE, UNIT, entry, unit,
};
use std::test::Fail;
use trees::{AttributeValue, EditFault, Refusal, UnitTable};

// Two tables may have one number: a reservation of one comes to the other, whose entry is not
// waiting. It is handed back, and still good where it came from.
#[test]
fn reservation_of_another_table(rt: HostRuntime) -> Result<(), Fail> {
    let mut units = [UNIT; 1];
    let mut entries = [ENTRY; 2];
    let mut attributes = [ATTRIBUTE; 1];
    let mut one = UnitTable::new(TABLE, &mut units, &mut entries, &mut attributes, b"");
    let mut more_units = [UNIT; 1];
    let mut more_entries = [ENTRY; 2];
    let mut more_attributes = [ATTRIBUTE; 1];
    let mut two = UnitTable::new(
        TABLE,
        &mut more_units,
        &mut more_entries,
        &mut more_attributes,
        b"",
    );
    let _ = one.add(ENCODING, None);
    let _ = two.add(ENCODING, None);
    let placed = two.add_entry(entry(0), DW_TAG_VARIABLE);
    let reserved = one.reserve(unit(0));
    let Ok((id, reservation)) = reserved else {
        return Err(Fail::new("no reservation"));
    };
    match two.add_reserved(reservation, entry(0), DW_TAG_VARIABLE) {
        Ok(()) => Err(Fail::new("placed twice")),
        Err(Refusal { fault, reservation }) => {
            let back = one.give_back(reservation);
            assert!(rt; back && placed.is_ok());
            assert_eq!(rt; fault, EditFault::NotWaiting);
            assert!(rt; !one.knows(id) && two.knows(id));
            assert!(rt; one.counts().given_back == 1 && two.counts().placed == 1);
            Ok(())
        }
    }
}

// A child is taken out once; it can still be edited and be a parent, and is reached no more.
#[test]
fn taken_out(rt: HostRuntime) {
    let mut units = [UNIT; 1];
    let mut entries = [ENTRY; 3];
    let mut attributes = [ATTRIBUTE; 1];
    let mut table = UnitTable::new(TABLE, &mut units, &mut entries, &mut attributes, b"");
    let _ = table.add(ENCODING, None);
    let _ = table.add_entry(entry(0), DW_TAG_VARIABLE);
    assert_eq!(rt; table.delete_child(entry(0), entry(1)), Ok(true));
    assert_eq!(rt; table.delete_child(entry(0), entry(1)), Ok(false));
    assert!(rt;
        table
            .set(entry(1), DW_AT_NAME, AttributeValue::Udata(1))
            .is_ok()
    );
    assert_eq!(rt; table.add_entry(entry(1), DW_TAG_VARIABLE), Ok(entry(2)));
    assert!(rt; table.children(entry(0)).next().is_none());
    let mut walk = table.walk(unit(0));
    assert!(rt; walk.next().is_some());
    assert!(rt; walk.next().is_none() && walk.next().is_none());
    assert!(rt; table.counts().placed == 1 && table.counts().taken_out == 1);
}

// What a written unit and a closed session refuse; a file index is found in an entry that is not reached.
#[test]
fn written_and_closed(rt: HostRuntime) -> Result<(), Fail> {
    let mut units = [UNIT; 1];
    let mut entries = [ENTRY; 2];
    let mut attributes = [ATTRIBUTE; 1];
    let mut table = UnitTable::new(TABLE, &mut units, &mut entries, &mut attributes, b"");
    let _ = table.add(ENCODING, None);
    let Ok((id, reservation)) = table.reserve(unit(0)) else {
        return Err(Fail::new("no reservation"));
    };
    let unused = table.uses_files(unit(0));
    let named = table.set(id, DW_AT_NAME, AttributeValue::FileIndex(Some(0)));
    let used = table.uses_files(unit(0));
    let sibling = table.set(id, 0x01, AttributeValue::Udata(0));
    let marked = table.mark_written(unit(0));
    let written = table.delete(id, DW_AT_NAME);
    table.close();
    let closed = table.delete(id, DW_AT_NAME);
    let given = table.give_back(reservation);
    assert!(rt; !unused && named.is_ok() && used);
    assert_eq!(rt; sibling, Err(EditFault::SiblingName));
    assert!(rt; marked);
    assert_eq!(rt; written, Err(EditFault::UnitWritten));
    assert_eq!(rt; closed, Err(EditFault::SessionClosed));
    assert!(rt; given && !table.knows(id) && table.uses_files(unit(0)));
    Ok(())
}
