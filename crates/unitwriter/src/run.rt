ghost use Rattle.trees.specs.View.{view};
ghost use Rattle.sessions.specs.Sessions.{stage, Led};
ghost use Rattle.sessions.specs.Tables.{IsTold};
ghost use Rattle.std.specs.Prelude.{◌≤◌, length};

use super::look::print_declined;
use super::scene::Scene;
use numbers::Format;
use scripts::{Call, Complaint, Edit, Line, Opening};
use sessions::Session;
use std::io;
use trees::{
    Attribute, AttributeRecord, AttributeValue, Encoding, EntryRecord, Note, State, UnitRecord,
    UnitTable,
};

// The number of each session's table.
const TABLE: u32 = 1;

// A line, or what is wrong with it, and its number.
#[derive(Drop)]
pub struct Entry {
    pub number: usize,
    pub line: Result<Line, Complaint>,
}

fn print_bad(rt: &HostRuntime, number: usize, complaint: Complaint) -> io::Result<()> {
    println!(rt; "bad line {number}: {complaint}")
}

fn edit(rt: &HostRuntime, session: &mut Session<'_>, number: usize, edit: Edit) -> io::Result<()>
    ensures { Led (stage session.old) (stage session.new) }
{
    match session.perform(edit) {
        Ok(Ok(reply)) => println!(rt; "{reply}"),
        Ok(Err(fault)) => print_declined(rt, fault),
        Err(complaint) => print_bad(rt, number, complaint),
    }
}

// Carries a line of a session out.
fn run_entry(
    rt: &HostRuntime,
    session: &mut Session<'_>,
    pool: &[u8],
    entry: &Entry,
) -> io::Result<()>
    ensures { Led (stage session.old) (stage session.new) }
{
    match &entry.line {
        Ok(Line::Call(Call::Edit(x))) => edit(rt, session, entry.number, *x),
        Ok(Line::Call(Call::Look(x))) => {
            let session = &*session;
            Scene { rt, pool, session }.look(*x)
        }
        Ok(Line::Empty | Line::Session(_) | Line::End) => Ok(()),
        Err(complaint) => print_bad(rt, entry.number, *complaint),
    }
}

// Carries the lines of a session out, one after the other.
fn run_entries(
    rt: &HostRuntime,
    session: &mut Session<'_>,
    pool: &[u8],
    entries: &[Entry],
) -> io::Result<()>
    ensures { Led (stage session.old) (stage session.new) }
{
    for entry in entries {
        run_entry(rt, session, pool, entry)?;
    }
    Ok(())
}

// A session from its first call to its report.
fn run_and_report(
    rt: &HostRuntime,
    session: &mut Session<'_>,
    pool: &[u8],
    opening: &Opening,
    entries: &[Entry],
) -> io::Result<()>
    ensures { Led (stage session.old) (stage session.new) }
{
    let name = opening.name.as_str();
    println!(rt; "session {name}")?;
    run_entries(rt, session, pool, entries)?;
    let session = &*session;
    Scene { rt, pool, session }.report(opening)
}

// Records that are in no use yet.
const NO_NOTE: Note = Note { offset: 0, code: 0 };

const NO_UNIT: UnitRecord = UnitRecord {
    encoding: Encoding {
        version: 0,
        format: Format::Dwarf32,
        address_size: 0,
    },
    line: None,
    root: 0,
    written: false,
};

const NO_ENTRY: EntryRecord = EntryRecord {
    unit: 0,
    state: State::Root,
    tag: 0,
    sibling: false,
    parent: 0,
    first: 0,
    last: 0,
    next: 0,
    attribute: 0,
    note: NO_NOTE,
};

const NO_ATTRIBUTE: AttributeRecord = AttributeRecord {
    attribute: Attribute {
        name: 0,
        value: AttributeValue::FlagPresent,
    },
    owner: 0,
    next: 0,
};

// A session over lent memory: the table that it leaves is what calls and answers tell, whatever the lines say and
// wherever printing fails.
fn run_records<'a>(
    rt: &HostRuntime,
    units: &'a mut [UnitRecord],
    entries: &'a mut [EntryRecord],
    attributes: &'a mut [AttributeRecord],
    pool: &'a [u8],
    opening: &Opening,
    lines: &[Entry],
) -> (UnitTable<'a>, io::Result<()>)
    ensures { IsTold (view result.0.records) }
{
    let mut session = Session::new(rt.alloc(), TABLE, units, entries, attributes, pool);
    let done = run_and_report(rt, &mut session, pool, opening, lines);
    let table = session.end();
    (table, done)
}

// A session over memory of its own.
fn run_session(
    rt: &HostRuntime,
    pool: &[u8],
    opening: &Opening,
    entries: &[Entry],
) -> io::Result<()> {
    let heap = rt.alloc();
    let mut unit_records = vec![in heap; NO_UNIT; opening.units]?;
    let mut entry_records = vec![in heap; NO_ENTRY; opening.entries]?;
    let mut attribute_records = vec![in heap; NO_ATTRIBUTE; opening.attributes]?;
    let (_, done) = run_records(
        rt,
        unit_records.as_mut_slice(),
        entry_records.as_mut_slice(),
        attribute_records.as_mut_slice(),
        pool,
        opening,
        entries,
    );
    done
}

// How many lines a session has, before the one that ends it.
fn session_len(entries: &[Entry]) -> usize
    ensures { result ≤ length entries.now }
{
    entries
        .iter()
        .position(|entry| matches!(&entry.line, Ok(Line::Session(_) | Line::End)))
        .unwrap_or(entries.len())
}

// A line outside any session: only an empty one is in its place.
fn run_outside(rt: &HostRuntime, entry: &Entry) -> io::Result<()> {
    match &entry.line {
        Ok(Line::Call(_) | Line::End) => print_bad(rt, entry.number, Complaint::NoSession),
        Ok(Line::Empty | Line::Session(_)) => Ok(()),
        Err(complaint) => print_bad(rt, entry.number, *complaint),
    }
}

// What stands after the lines of a session: an `end` is its own.
fn after_session(entries: &[Entry]) -> &[Entry]
    ensures { length result.now ≤ length entries.now }
{
    match entries.split_first() {
        Some((entry, rest)) if matches!(&entry.line, Ok(Line::End)) => rest,
        _ => entries,
    }
}

// Runs a whole script, session by session.
pub fn run_script(rt: &HostRuntime, pool: &[u8], entries: &[Entry]) -> io::Result<()> {
    let mut rest = entries;
    while let Some((entry, after)) = rest.split_first() {
        rest = match &entry.line {
            Ok(Line::Session(opening)) => {
                let (lines, after) = after.split_at(session_len(after));
                run_session(rt, pool, opening, lines)?;
                after_session(after)
            }
            _ => {
                run_outside(rt, entry)?;
                after
            }
        };
    }
    Ok(())
}
