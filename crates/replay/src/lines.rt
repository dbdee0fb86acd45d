// Calls of a whole line: the pair and the entries of a record, as numbers of the file, and those of the record after the call.
ghost use Rattle.std.specs.Prelude.{◌≤◌};

use crate::{file, runs};
use resampler::Record;
use std::fs::File;
use std::io;

// The next number, if it is a byte; else 255, which is in no pair.
fn byte(from: &mut File) -> io::Result<u8> {
    let n: i32 = file::take(from)?;
    Ok(u8::try_from(n).unwrap_or(255))
}

// The pair, and then every take of the record, live or dead.
fn record(from: &mut File) -> io::Result<Record> {
    Ok(Record {
        direction: byte(from)?,
        inKhz: byte(from)?,
        outKhz: byte(from)?,
        doubler: file::array(from)?,
        samples: file::array(from)?,
        ar2: file::array(from)?,
        fir: file::array(from)?,
        delay: file::array(from)?,
    })
}

// Whether the next numbers are the entries of this record.
fn same_record(from: &mut File, s: &Record) -> io::Result<bool> {
    let doubler = file::same(from, &s.doubler)?;
    let samples = file::same(from, &s.samples)?;
    let ar2 = file::same(from, &s.ar2)?;
    let fir = file::same(from, &s.fir)?;
    let delay = file::same(from, &s.delay)?;
    Ok(doubler & samples & ar2 & fir & delay)
}

// A call, and whether all that it leaves is what the next numbers say.
fn call(from: &mut File, s: Record, out: &mut [i16], input: &[i16]) -> io::Result<bool> {
    let r = resampler::silk_resampler(s, out, input);
    let outputs = file::same(from, out)?;
    Ok(runs::done_but(2, r.answer, out.len()) & outputs & same_record(from, &r.state)?)
}

// A call of n samples and m places of output, the last two of which are to stay as they were.
pub fn line_case(from: &mut File, n: usize, m: usize) -> io::Result<bool>
    requires { (n ≤ 1024) × (m ≤ 1024) }
{
    let s = record(from)?;
    let input: [i16; 1024] = file::front(from, n)?;
    let mut out = [runs::UNTOUCHED; 1024];
    call(from, s, &mut out[..m], &input[..n])
}
