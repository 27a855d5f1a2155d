ghost use Rattle.std.specs.Prelude.{◌≡◌, OnOk};
ghost use Rattle.sections.specs.Section.{Section};
ghost use Rattle.assemble.specs.Orders.{state_of, line_done, lines_done};

use super::answer::{Answer, Refusal};
use super::bench::Bench;
use super::call::{Base, Layers, Pile};
use super::complaint::Complaint;
use super::line::{Entry, Line};
use super::report::report;
use numbers::{BigEndian, LittleEndian, RunTimeEndian};
use std::io;
use writers::{Contents, LinkWriter, PageWriter, Quota, Relocating, SliceWriter};

fn print_bad(rt: &HostRuntime, number: usize, complaint: Complaint) -> io::Result<()> {
    println!(rt; "{number}: bad line: {complaint}")
}

// An answer, and the section's length where something was done.
fn print_answer(
    rt: &HostRuntime,
    number: usize,
    answer: Result<Answer, Refusal>,
    length: usize,
) -> io::Result<()> {
    match answer {
        Ok(answer) => println!(rt; "{number}: {answer}, length {length}"),
        Err(refusal) => println!(rt; "{number}: {refusal}"),
    }
}

// Carries a line out, and prints the answer.
fn run_entry<L: LinkWriter>(rt: &HostRuntime, bench: &mut Bench<L>, entry: &Entry) -> io::Result<()>
    ensures { OnOk result (line_done L.LinkWriter.relocates entry.now.line (state_of L.Writer.meaning bench.old) ≡ state_of L.Writer.meaning bench.new) }
{
    match &entry.line {
        Ok(Line::Order(order)) => {
            bench.lengths.reserve(1)?;
            let answer = bench.perform(order);
            print_answer(rt, entry.number, answer, bench.writer.len())
        }
        Ok(Line::Empty | Line::Pile(_)) => Ok(()),
        Err(complaint) => print_bad(rt, entry.number, *complaint),
    }
}

// Carries the lines of a section out, one after the other.
fn run_entries<L: LinkWriter>(
    rt: &HostRuntime,
    bench: &mut Bench<L>,
    entries: &[Entry],
) -> io::Result<()>
    ensures { OnOk result (lines_done L.LinkWriter.relocates entries.now (state_of L.Writer.meaning bench.old) ≡ state_of L.Writer.meaning bench.new) }
{
    for entry in entries {
        run_entry(rt, bench, entry)?;
    }
    Ok(())
}

fn run_and_report<L: LinkWriter + Contents>(
    rt: &HostRuntime,
    pile: Pile,
    bench: &mut Bench<L>,
    entries: &[Entry],
) -> io::Result<()>
    ensures { OnOk result (lines_done L.LinkWriter.relocates entries.now (state_of L.Writer.meaning bench.old) ≡ state_of L.Writer.meaning bench.new) }
{
    run_entries(rt, bench, entries)?;
    report(rt, pile, bench)
}

// A section from its first call to its report.
fn run_section<L: LinkWriter + Contents + Drop>(
    rt: &HostRuntime,
    pile: Pile,
    writer: L,
    entries: &[Entry],
) -> io::Result<()> {
    let mut bench = Bench::new(rt.alloc(), writer);
    let done = run_and_report(rt, pile, &mut bench, entries);
    bench.finish();
    done
}

fn run_layers<L: LinkWriter + Contents + Drop>(
    rt: &HostRuntime,
    pile: Pile,
    base: L,
    entries: &[Entry],
) -> io::Result<()> {
    match pile.layers {
        Layers::Plain => run_section(rt, pile, base, entries),
        Layers::Relocating => run_section(rt, pile, Relocating::new(base), entries),
        Layers::Quota(limit) => run_section(rt, pile, Quota::new(base, limit), entries),
        Layers::RelocatingQuota(limit) => run_section(
            rt,
            pile,
            Quota::new(Relocating::new(base), limit),
            entries,
        ),
        Layers::QuotaRelocating(limit) => run_section(
            rt,
            pile,
            Relocating::new(Quota::new(base, limit)),
            entries,
        ),
    }
}

fn run_pile(rt: &HostRuntime, pile: Pile, entries: &[Entry]) -> io::Result<()> {
    match pile.base {
        Base::Slice(size, endian) => {
            let mut memory = vec![in rt.alloc(); 0u8; size]?;
            run_layers(
                rt,
                pile,
                SliceWriter::new(memory.as_mut_slice(), endian),
                entries,
            )
        }
        Base::Page(RunTimeEndian::Little) => run_layers(
            rt,
            pile,
            PageWriter::new(LittleEndian),
            entries,
        ),
        Base::Page(RunTimeEndian::Big) => run_layers(rt, pile, PageWriter::new(BigEndian), entries),
    }
}

// The lines before any pile.
fn run_unpiled(rt: &HostRuntime, entries: &[Entry]) -> io::Result<()> {
    for entry in entries {
        match &entry.line {
            Ok(Line::Order(_)) => print_bad(rt, entry.number, Complaint::NoPile)?,
            Ok(Line::Empty | Line::Pile(_)) => {}
            Err(complaint) => print_bad(rt, entry.number, *complaint)?,
        }
    }
    Ok(())
}

// Runs a whole script, section by section: a pile begins one.
pub fn run_script(rt: &HostRuntime, entries: &[Entry]) -> io::Result<()> {
    for section in entries.chunk_by(|_, next| !matches!(next.line, Ok(Line::Pile(_)))) {
        match section {
            [
                Entry {
                    line: Ok(Line::Pile(pile)),
                    ..
                },
                calls @ ..,
            ] => run_pile(rt, *pile, calls)?,
            _ => run_unpiled(rt, section)?,
        }
    }
    Ok(())
}
