// Runs a script of writes and parses, and prints one answer for each line.
// `compare/` runs the same script through the original Rust; the answers are held to the crate's `stdout`.

#![tactic(auto)]

mod fault;
mod run;
mod script;
mod show;
mod words;

use run::Session;
use std::io;
use std::io::{BufRead, BufReader};

fn main(rt: HostRuntime) -> io::Result<()> {
    let heap = rt.alloc();
    let mut session = Session::new(heap);
    for line in BufReader::new(heap, rt.stdin())?.lines(heap) {
        let line = line?;
        if let Some(answer) = session.answer(line.as_str())? {
            rt.println(answer)?;
        }
    }
    Ok(())
}
