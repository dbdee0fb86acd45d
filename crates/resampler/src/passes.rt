// Both passes of a call over whole milliseconds, on each path. From silk_resampler of silk/resampler/mod.rs. Meaning:
// specs/Resample.antt. The path is picked once, its stage runs twice on the words alone, and the record is made once, with the
// path's words moved on and all others zero.
ghost use Rattle.std.specs.Prelude.{◌≡◌, [], ◌*◌, ◌%◌, ◌≤◌, length};
ghost use Rattle.resampler.specs.declared.path.Kind.TheVariants.{Copy, Doubler, Interpolator, Down};
ghost use Rattle.resampler.specs.Kinds.{Is};
ghost use Rattle.resampler.specs.Record.{pair_of, arrays, keeping};
ghost use Rattle.resampler.specs.Resample.{room_of, Passed};

use crate::Record;
use crate::known::Known;
use crate::path::Kind;
use stages::{DownWords, IirFirWords};

// What a call filters, for a record: a millisecond, and whole ones behind it; a pass each.
#[derive(Clone, Copy)]
pub struct Parts<'a> {
    pub known: Known,
    pub first: &'a [i16],
    pub rest: &'a [i16],
    ghost one: { length first.now ≡ known.state.inKhz },
    ghost whole: { length rest.now % known.state.inKhz ≡ 0 },
}

// The record with every word zero.
fn bare(s: Record) -> Record
    ensures { result ≡ keeping (pair_of s) (arrays [] [] [] []) s.delay }
{
    Record {
        doubler: [0; 6],
        samples: [0; 8],
        ar2: [0; 2],
        fir: [0; 36],
        ..s
    }
}

// An equal rate: the samples as they are.
fn copied(p: Parts<'_>, out: &mut [i16]) -> Record
    requires kind { Is Copy (pair_of p.known.state) }
    requires room { room_of p.known.state p.rest.now ≤ length out.old }
    ensures { Passed p.entry.known.state p.entry.first.now p.entry.rest.now out.old out.new result }
{
    let s = p.known.state;
    let outKhz = s.outKhz as usize;
    stages::copy_samples(out, p.first);
    stages::copy_samples(&mut out[outKhz..], p.rest);
    bare(s)
}

// Twice the rate.
fn doubled(p: Parts<'_>, out: &mut [i16]) -> Record
    requires kind { Is Doubler (pair_of p.known.state) }
    requires room { room_of p.known.state p.rest.now ≤ length out.old }
    ensures { Passed p.entry.known.state p.entry.first.now p.entry.rest.now out.old out.new result }
{
    let s = p.known.state;
    let outKhz = s.outKhz as usize;
    let between = stages::silk_resampler_private_up2_HQ(s.doubler, out, p.first);
    let doubler = stages::silk_resampler_private_up2_HQ(between, &mut out[outKhz..], p.rest);
    let mut after = bare(s);
    after.doubler = doubler;
    after
}

// Any other higher rate.
fn interpolated(p: Parts<'_>, out: &mut [i16]) -> Record
    requires kind { Is Interpolator (pair_of p.known.state) }
    requires room { room_of p.known.state p.rest.now ≤ length out.old }
    ensures { Passed p.entry.known.state p.entry.first.now p.entry.rest.now out.old out.new result }
{
    let s = p.known.state;
    let r = p.known.rates();
    let doubler = s.doubler;
    let samples = s.samples;
    let given = IirFirWords { doubler, samples };
    let a = stages::silk_resampler_private_IIR_FIR(r, given, out, p.first);
    let b = stages::silk_resampler_private_IIR_FIR(r, a.words, &mut out[r.outKhz..], p.rest);
    let IirFirWords { doubler, samples } = b.words;
    let mut after = bare(s);
    after.doubler = doubler;
    after.samples = samples;
    after
}

// A lower rate.
fn lowered(p: Parts<'_>, out: &mut [i16]) -> Record
    requires kind { Is Down (pair_of p.known.state) }
    requires room { room_of p.known.state p.rest.now ≤ length out.old }
    ensures { Passed p.entry.known.state p.entry.first.now p.entry.rest.now out.old out.new result }
{
    let s = p.known.state;
    let r = p.known.rates();
    let f = p.known.filter();
    let ar2 = s.ar2;
    let fir = s.fir;
    let given = DownWords { ar2, fir };
    let a = stages::silk_resampler_private_down_FIR(r, f, given, out, p.first);
    let b = stages::silk_resampler_private_down_FIR(r, f, a.words, &mut out[r.outKhz..], p.rest);
    let DownWords { ar2, fir } = b.words;
    let mut after = bare(s);
    after.ar2 = ar2;
    after.fir = fir;
    after
}

// The path of a pair, by its two rates.
pub fn both(p: Parts<'_>, out: &mut [i16]) -> Record
    requires { room_of p.known.state p.rest.now ≤ length out.old }
    ensures { Passed p.entry.known.state p.entry.first.now p.entry.rest.now out.old out.new result }
{
    match p.known.kind() {
        Kind::Copy => copied(p, out),
        Kind::Doubler => doubled(p, out),
        Kind::Interpolator => interpolated(p, out),
        Kind::Down => lowered(p, out),
    }
}
