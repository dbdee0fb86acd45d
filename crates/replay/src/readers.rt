// Runs of the stages that are told their rates, the interpolator and the down filters, in the manner of runs.rt.
ghost use Rattle.std.specs.Prelude.{◌≡◌, true, ◌*◌, ◌%◌, ◌≤◌, ◌<◌};
ghost use Rattle.filters.specs.Reader.{outputs, Steady};
ghost use Rattle.replay.specs.Small.{Small};

use crate::{file, runs};
use stages::{DownWords, Filter, IirFirWords, Rates};
use std::fs::File;
use std::{array, io};

// A number that is one of 1 to `most`; 1 where it is another.
fn within(x: i32, most: usize) -> usize
    requires { 0 < most }
    ensures { (0 < result) × (result ≤ most) }
{
    match usize::try_from(x) {
        Ok(n) if 0 < n && n <= most => n,
        _ => 1,
    }
}

// The rates among the numbers given, from `at` on.
fn rates(given: &[i32; 48], at: usize) -> Rates
    requires { at ≤ 48 }
    ensures { Small result }
{
    Rates {
        inKhz: within(runs::word(given, at), 48),
        outKhz: within(runs::word(given, at + 1), 48),
        increment: within(runs::word(given, at + 2), 16777215),
    }
}

fn times(a: usize, b: usize) -> usize
    requires { (a ≤ 1024) × (b < 16777216) }
    ensures { (result ≡ a * b) × (result < 17179869184) }
{
    a * b
}

// Whether a reader takes n samples at these rates, and makes as many outputs of them as it has places but two. It takes whole
// milliseconds, where the outputs of up to ten begin before their samples end; each puts num samples into the buffer.
fn takes(r: Rates, num: usize, n: usize, places: usize) -> bool
    requires { Small r × (num ≤ 96) }
    ensures { result ≡ true → Steady num r × (n % r.inKhz ≡ 0) × (outputs r n ≤ places) }
{
    n <= 1024
        && n % r.inKhz == 0
        && times(n / r.inKhz, r.outKhz) + 2 == places
        && 10 * times(r.outKhz, r.increment) < 10 * (num * 65536) + r.increment
}

pub fn iir_fir(
    from: &mut File,
    given: &[i32; 48],
    out: &mut [i16],
    input: &[i16],
) -> io::Result<bool> {
    let r = rates(given, 0);
    if 16 < r.inKhz || !takes(r, 2 * r.inKhz, input.len(), out.len()) {
        return Ok(false);
    }
    let s = IirFirWords {
        doubler: runs::entries(given, 3),
        samples: runs::entries(given, 9),
    };
    let q = stages::silk_resampler_private_IIR_FIR(r, s, out, input);
    let written = runs::all_but(2, q.written, out.len());
    let outputs = runs::same_written(from, written, out, &q.words.doubler)?;
    Ok(outputs & file::same(from, &q.words.samples)?)
}

fn filter(which: i32) -> Filter<'static> {
    match which {
        0 => stages::DOWN_3_4,
        1 => stages::DOWN_2_3,
        2 => stages::DOWN_1_2,
        3 => stages::DOWN_1_3,
        4 => stages::DOWN_1_4,
        _ => stages::DOWN_1_6,
    }
}

// What stands behind the live words of a down filter: it must not be read.
const DEAD: i32 = 1515870810;

// The words of AR2 and the first n of a down filter.
fn down_words(given: &[i32; 48], n: usize) -> DownWords {
    DownWords {
        ar2: runs::entries(given, 4),
        fir: array::from_fn(|i| if i < n {
            runs::word(given, 6 + i)
        } else {
            DEAD
        }),
    }
}

pub fn down_fir(
    from: &mut File,
    given: &[i32; 48],
    out: &mut [i16],
    input: &[i16],
) -> io::Result<bool> {
    let r = rates(given, 1);
    if 16 < r.outKhz || !takes(r, r.inKhz, input.len(), out.len()) {
        return Ok(false);
    }
    let f = filter(runs::word(given, 0));
    let s = down_words(given, f.order);
    let q = stages::silk_resampler_private_down_FIR(r, f, s, out, input);
    let written = runs::all_but(2, q.written, out.len());
    let outputs = runs::same_written(from, written, out, &q.words.ar2)?;
    Ok(outputs & file::same(from, &q.words.fir[..f.order])?)
}
