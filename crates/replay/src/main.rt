// Replays the stored answers of the Rust original, data/rust.bin, against the proved code, and prints how many there are
// and how many differ. tools/oracle/README.md describes the file and how it was made.
#![tactic(auto)]

use std::fs::File;
use std::io;

mod file;
mod kinds;
mod lines;
mod operations;
mod readers;
mod runs;

use kinds::Kind;

// The most cases that are read.
const MOST: u32 = 4000000000;

struct Counted {
    cases: u32,
    differ: u32,
}

// One case after its kind.
fn case(from: &mut File, kind: Kind) -> io::Result<bool> {
    let given = file::count(from)?;
    let n = file::count(from)?;
    let m = file::count(from)?;
    let after = file::count(from)?;
    match kind {
        Kind::Word(operation) => operations::word_case(from, operation),
        Kind::Line => Ok((given == 103) & (after == 100) & lines::line_case(from, n, m)?),
        Kind::Run(stage) => runs::run_case(from, stage, given, n, m),
    }
}

fn replay(from: &mut File) -> io::Result<Counted> {
    let mut differ = 0;
    for cases in 0..MOST {
        let Some(kind) = file::next(from)? else {
            return Ok(Counted { cases, differ });
        };
        if !case(from, Kind::from(kind))? {
            differ += 1;
        }
    }
    Ok(Counted {
        cases: MOST,
        differ,
    })
}

fn main(rt: HostRuntime) -> io::Result<()> {
    let mut from = File::open(&rt, "rust.bin")?;
    let Counted { cases, differ } = replay(&mut from)?;
    println!(rt; "{cases} cases, {differ} differ")
}
