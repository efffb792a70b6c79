// The program on files of `data/` that the arguments name, each under its name: document 01's own input, P7, P8, items of every kind, the longest
// line, and a file that is refused with each of 1, 2, 3, 4, 6 and 10. Files, names and what has to be written are made by tools/cases.py.
#![tactic(auto)]

use std::fs::File;
use std::{env, io};

fn main(rt: HostRuntime) -> io::Result<()> {
    for name in env::args(&rt)?.skip(1) {
        println!(rt; "{name}")?;
        krl_program::run(&rt, &mut File::open(&rt, &name)?);
    }
    Ok(())
}
