// A call: whole milliseconds in, whole milliseconds out, in two passes. From silk_resampler of silk/resampler/mod.rs. Meaning:
// specs/Resample.antt and specs/Entry.antt. Unlike the Rust, this refuses what it can't convert, and the record goes by value.
ghost use Rattle.std.specs.Prelude.{◌≡◌, ◌≤◌, length};
ghost use Rattle.stages.specs.Outcome.{outcome, answer_of, row, Staged};
ghost use Rattle.resampler.specs.Entry as Entry;
ghost use Rattle.resampler.specs.Record.{pair_of};
ghost use Rattle.resampler.specs.Resample.{converted, after, Calling};

use crate::Record;
use crate::known::Known;
use crate::passes::{self, Parts};
use stages::{Answered, Refusal};

// Converts whole milliseconds, at most a thousand of them. Unlike the Rust, which panics, this refuses what it can't convert.
pub fn silk_resampler(s: Record, out: &mut [i16], input: &[i16]) -> Answered<Record>
    ensures { outcome (answer_of result.answer) result.state out.new ≡ Entry.resample_outcome s input.now out.old }
{
    let Some(known) = Known::of(s) else {
        return Answered::refused(Refusal::NoSupportedPair, s);
    };
    if let Some(refusal) = refusal_of(&known, input.len(), out.len()) {
        return Answered::refused(refusal, s);
    }
    let written = input.len() / s.inKhz as usize * s.outKhz as usize;
    let record = call(known, out, input);
    Answered::done(written, record)
}

// What n samples of input and this room are refused for.
fn refusal_of(known: &Known, n: usize, room: usize) -> Option<Refusal>
    ensures { row result ≡ Entry.resample_row (pair_of known.now.state) n room }
{
    let inKhz = known.state.inKhz as usize;
    let outKhz = known.state.outKhz as usize;
    if n == 0 || n % inKhz != 0 {
        return Some(Refusal::NotWholeMilliseconds);
    }
    if 1000 * inKhz < n {
        return Some(Refusal::TooLong);
    }
    if room < n / inKhz * outKhz {
        Some(Refusal::OutputTooShort)
    } else {
        None
    }
}

// A call that is not refused: the first millisecond, which is the samples carried over, d of them, and as many of the input as it
// lacks; the rest of what is filtered; and what is carried on.
fn call(known: Known, out: &mut [i16], input: &[i16]) -> Record
    requires { Calling known.state (length input.now) (length out.old) }
    ensures { Staged (converted known.state input.now) (after known.state input.now) out.old out.new result }
{
    let inKhz = known.state.inKhz as usize;
    let d = known.delay();
    let end = input.len() - d;
    let mut buf = known.state.delay;
    buf[d..inKhz].copy_from_slice(&input[..inKhz - d]);
    let parts = Parts {
        known,
        first: &buf[..inKhz],
        rest: &input[inKhz - d..end],
    };
    let mut after = passes::both(parts, out);
    after.delay = stages::carried(0, &input[end..]);
    after
}
