#![tactic(auto)]

// Assembles sections call by call, as a script on standard input says.
mod answer;
mod apply;
mod bench;
mod call;
mod complaint;
mod line;
mod parse;
mod report;
mod run;
mod verb;

use line::Entry;
use parse::read_line;
use std::io;

fn read_script(rt: &HostRuntime) -> io::Result<Vec<Entry>> {
    let heap = rt.alloc();
    let mut entries = Vec::new(heap);
    for (i, text) in rt.lines(heap).enumerate() {
        entries.push(Entry {
            number: i.saturating_add(1),
            line: read_line(heap, text?.as_str()),
        })?;
    }
    Ok(entries)
}

fn main(rt: HostRuntime) -> io::Result<()> {
    let entries = read_script(&rt)?;
    run::run_script(&rt, entries.as_slice())
}
