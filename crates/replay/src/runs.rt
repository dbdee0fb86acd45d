// Cases of a stage's run. Each function here takes the numbers that a case gives, calls the stage on an output of as many
// places as the case has, and compares the whole output and the words with the numbers that come next.
ghost use Rattle.std.specs.Prelude.{◌≤◌};

use crate::file::Entry;
use crate::kinds::Stage;
use crate::{file, readers};
use stages::Refusal;
use std::fs::File;
use std::io;

// What a place of an output holds before a call.
pub const UNTOUCHED: i16 = 12345;

// Whether all places but so many are written.
pub fn all_but(spare: usize, written: usize, places: usize) -> bool {
    written.checked_add(spare) == Some(places)
}

// Whether so many are done and no more.
pub fn done_but(spare: usize, answer: Result<usize, Refusal>, places: usize) -> bool {
    answer.is_ok_and(|written| all_but(spare, written, places))
}

// Whether all places but so many are reported written, and the next numbers are the output and these words.
pub fn same_written(
    from: &mut File,
    written: bool,
    out: &[i16],
    words: &[i32],
) -> io::Result<bool> {
    if written {
        file::same_run(from, out, words)
    } else {
        Ok(false)
    }
}

// One of the numbers given; 0 where there is none.
pub fn word(given: &[i32; 48], i: usize) -> i32 {
    given.get(i).copied().unwrap_or(0)
}

// Those from `at` on, as words or as samples, and zeros behind them.
pub fn entries<T: Entry, const N: usize>(given: &[i32; 48], at: usize) -> [T; N]
    requires { at ≤ 48 }
{
    let mut to = [T::ZERO; N];
    for (x, number) in to.iter_mut().zip(&given[at..]) {
        *x = T::of(*number);
    }
    to
}

fn ar2(from: &mut File, given: &[i32; 48], input: &[i16]) -> io::Result<bool> {
    let n = input.len();
    if 1024 < n {
        return Ok(false);
    }
    let taps: [i16; 2] = entries(given, 0);
    let a = [i64::from(taps[0]), i64::from(taps[1])];
    let mut out = [0i32; 1024];
    let after = stages::silk_resampler_private_AR2(entries(given, 2), &mut out, input, &a);
    let outputs = file::same(from, &out[..n])?;
    Ok(outputs & file::same(from, &after)?)
}

fn down2(from: &mut File, given: &[i32; 48], out: &mut [i16], input: &[i16]) -> io::Result<bool> {
    let a = stages::silk_resampler_down2(entries(given, 0), out, input);
    same_written(from, done_but(0, a.answer, out.len()), out, &a.state)
}

fn split(
    from: &mut File,
    given: &[i32; 48],
    low: &mut [i16],
    high: &mut [i16],
    input: &[i16],
) -> io::Result<bool> {
    let a = stages::silk_ana_filt_bank_1(entries(given, 0), low, high, input);
    let lows = file::same(from, low)?;
    Ok(lows & same_written(from, done_but(0, a.answer, high.len()), high, &a.state)?)
}

fn down2_3(from: &mut File, given: &[i32; 48], out: &mut [i16], input: &[i16]) -> io::Result<bool> {
    let a = stages::silk_resampler_down2_3(entries(given, 0), out, input);
    same_written(from, done_but(2, a.answer, out.len()), out, &a.state)
}

fn up2(from: &mut File, given: &[i32; 48], out: &mut [i16], input: &[i16]) -> io::Result<bool> {
    // Two places for each sample, and two more.
    if out.len() / 2 != input.len() + 1 {
        return Ok(false);
    }
    let after = stages::silk_resampler_private_up2_HQ(entries(given, 0), out, input);
    file::same_run(from, out, &after)
}

fn run(
    from: &mut File,
    stage: Stage,
    given: &[i32; 48],
    out: &mut [i16],
    high: &mut [i16],
    input: &[i16],
) -> io::Result<bool> {
    match stage {
        Stage::Ar2 => ar2(from, given, input),
        Stage::Down2 => down2(from, given, out, input),
        Stage::Split => split(from, given, out, high, input),
        Stage::Down2_3 => down2_3(from, given, out, input),
        Stage::Up2 => up2(from, given, out, input),
        Stage::IirFir => readers::iir_fir(from, given, out, input),
        Stage::DownFir => readers::down_fir(from, given, out, input),
        Stage::Unknown => Ok(false),
    }
}

// A case of n samples and m places of output, of which the last half is the high band's in the split.
pub fn run_case(from: &mut File, stage: Stage, given: usize, n: usize, m: usize) -> io::Result<bool>
    requires { (n ≤ 1024) × (m ≤ 1024) }
{
    if 48 < given {
        return Ok(false);
    }
    let numbers = file::front(from, given)?;
    let input: [i16; 1024] = file::front(from, n)?;
    let h = if stage == Stage::Split { m / 2 } else { 0 };
    let mut out = [UNTOUCHED; 1024];
    let mut high = [UNTOUCHED; 1024];
    run(
        from,
        stage,
        &numbers,
        &mut out[..m - h],
        &mut high[..h],
        &input[..n],
    )
}
