ghost use Rattle.std.specs.Prelude.{◌≡◌, ◌-◌, if◌then◌else◌};

use super::bench::Bench;
use super::call::Pile;
use std::io;
use writers::{Contents, InitialLengthOffset, LinkWriter, Note};

// How many notes are left to a writer that has used some.
fn notes_left(relocates: bool, used: usize) -> usize
    ensures { result ≡ (if relocates then 512 - used else 0) }
{
    if relocates {
        512usize.saturating_sub(used)
    } else {
        0
    }
}

// Bytes, sixteen to a line.
fn print_bytes(rt: &HostRuntime, bytes: &[u8]) -> io::Result<()> {
    for (i, row) in bytes.chunks(16).enumerate() {
        let offset = i.saturating_mul(16);
        print!(rt; "{offset:08x} ")?;
        for b in row {
            print!(rt; " {b:02x}")?;
        }
        println!(rt; "")?;
    }
    Ok(())
}

fn print_notes(rt: &HostRuntime, notes: &[Note]) -> io::Result<()> {
    if notes.is_empty() {
        return println!(rt; "no notes");
    }
    println!(rt; "   place  size  target                addend")?;
    for Note {
        place,
        size,
        target,
        addend,
    } in notes {
        let target = target.to_string(rt.alloc())?;
        println!(rt; "{place:>8}  {size:>4}  {target:<20}  {addend}")?;
    }
    Ok(())
}

// The lengths that are still open.
fn print_open(rt: &HostRuntime, lengths: &[Option<InitialLengthOffset>]) -> io::Result<()> {
    for (i, length) in lengths.iter().enumerate() {
        if let Some(token) = length {
            let place = token.offset();
            println!(rt; "length {i} at {place} was still open: given up")?;
        }
    }
    Ok(())
}

// What a section has come to.
pub fn report<L: LinkWriter + Contents>(
    rt: &HostRuntime,
    pile: Pile,
    bench: &Bench<L>,
) -> io::Result<()> {
    let w = &bench.writer;
    println!(rt; "section: pile {}{}", pile.base, pile.layers)?;
    print_open(rt, bench.lengths.as_slice())?;
    println!(rt; "length {}, left {}", w.len(), w.left())?;
    print_bytes(rt, w.bytes())?;
    let notes = w.notes();
    print_notes(rt, notes)?;
    println!(rt; "notes left {}", notes_left(w.is_relocating(), notes.len()))?;
    println!(rt; "")
}
