#![tactic(auto)]

// Builds a table of DWARF units call by call, as a script on standard input says.
mod look;
mod report;
mod run;
mod scene;
mod words;

use run::Entry;
use std::io;
use std::io::{BufRead, BufReader};

fn main(rt: HostRuntime) -> io::Result<()> {
    let heap = rt.alloc();
    let mut pool = Vec::new(heap);
    let mut entries = Vec::new(heap);
    for text in BufReader::new(heap, rt.stdin())?.lines(heap) {
        let number = entries.len().saturating_add(1);
        let line = scripts::read_line(heap, &mut pool, text?.as_str());
        entries.push(Entry { number, line })?;
    }
    run::run_script(&rt, pool.as_slice(), entries.as_slice())
}
