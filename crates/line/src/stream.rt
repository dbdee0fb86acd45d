// The program `convert` between standard input and standard output. What it reads and writes no contract can say; what it makes
// of it is specs/Line.antt, by the parts that it calls.
ghost use Rattle.std.specs.Prelude.{◌≡◌, true, ◌*◌, length};
ghost use Rattle.resampler.specs.Pairs.{supported};
ghost use Rattle.resampler.specs.Record.{pair_of};

use crate::reading::read_full;
use crate::{calls, ends, said};
use resampler::Record;
use std::io;

// A record of a supported pair.
#[derive(Clone, Copy)]
struct Line {
    record: Record,
    ghost pair: { supported (pair_of «record») ≡ true },
}

// What a turn of reading, converting and writing leaves: a full piece may have more behind it; the last one leaves bytes over.
#[derive(Clone, Copy)]
enum Turned {
    More(Line),
    Last(Line, usize),
}

// Reads a block and then samples, writes the converted samples and then the new block. A refused block writes nothing.
pub fn run(rt: &HostRuntime) -> io::Result<()> {
    let mut head = [0; 512];
    let n = read_full(rt, &mut head)?;
    match ends::begin(&head[..n]) {
        Ok(record) => go_on(rt, Line { record }),
        Err(refusal) => said::refuse(rt, refusal),
    }
}

// The samples, what is left over, and the new block.
fn go_on(rt: &HostRuntime, line: Line) -> io::Result<()> {
    let (line, left) = feed(rt, line)?;
    if left != 0 {
        said::leave(rt, left)?;
    }
    let mut block = [0; 512];
    ends::finish(line.record, &mut block);
    rt.write_all(&block)
}

// Turn after turn, until the input ends.
fn feed(rt: &HostRuntime, line: Line) -> io::Result<(Line, usize)> {
    let mut line = line;
    for _ in 0..u64::MAX {
        match turn(rt, line)? {
            Turned::More(after) => line = after,
            Turned::Last(after, left) => return Ok((after, left)),
        }
    }
    Ok((line, 0))
}

// One turn: 100 ms.
fn turn(rt: &HostRuntime, line: Line) -> io::Result<Turned> {
    let mut input = [0; 9600];
    let most = 200 * (line.record.inKhz as usize);
    piece(rt, line, &mut input[..most])
}

// Fills `input`, or as much of it as there is, converts it and writes what was made.
#[tactic(auto, using(crate::proofs::Laws::Ends::still_supported, crate::proofs::Laws::Ends::count_within))]
fn piece(rt: &HostRuntime, line: Line, input: &mut [u8]) -> io::Result<Turned>
    requires { length input.old ≡ 200 * line.«record».inKhz }
{
    let n = read_full(rt, input)?;
    let mut out = [0; 9600];
    let called = calls::call(line.record, &input[..n], &mut out);
    rt.write_all(&out[..called.count])?;
    let after = Line {
        record: called.record,
    };
    Ok(if n == input.len() {
        Turned::More(after)
    } else {
        Turned::Last(after, called.left)
    })
}
