// Runs every row of refusals of the decimators, the split and the resampler, and accepted calls beside them, and prints what each
// call left: the answer's number and count, the words, and how many places behind the count are as they were.
#![tactic(auto)]

use resampler::Record;
use stages::Refusal;
use std::io;

// Every sample of the input.
const SAMPLE: i16 = 1000;

// What a place of an output holds before a call. No call here writes it.
const FILL: i16 = -32768;

// The words before a call. No call that takes samples ends in them.
const WORDS: [i32; 6] = [7, 8, 9, 10, 11, 12];

// The most samples or places of a call.
const MOST: usize = 48003;

// A call: its samples and its places; for the split the low band's, and then the high band's.
#[derive(Clone, Copy)]
enum Call {
    Down2(usize, usize),
    Split(usize, usize, usize),
    Down2_3(usize, usize),
    // The resampler, on a line of the encoder from 8 to 16 kHz.
    Line(usize, usize),
    // The resampler, on a record from 24 to 48 kHz, which is no pair.
    NoPair(usize, usize),
}

// The rows of each come in the order in which they are tested, also where a later row applies as well, and behind them what is
// accepted.
const CALLS: [Call; 63] = [
    Call::Down2(1, 0),
    Call::Down2(3, 1),
    Call::Down2(3, 5),
    Call::Down2(48001, 24000),
    Call::Down2(48002, 24001),
    Call::Down2(48002, 24000),
    Call::Down2(4, 1),
    Call::Down2(4, 3),
    Call::Down2(0, 2),
    Call::Down2(48000, 23999),
    Call::Down2(48000, 24001),
    Call::Down2(0, 0),
    Call::Down2(2, 1),
    Call::Down2(4, 2),
    Call::Down2(48000, 24000),
    Call::Split(3, 1, 1),
    Call::Split(3, 2, 1),
    Call::Split(48001, 24000, 24000),
    Call::Split(48002, 24001, 24001),
    Call::Split(48002, 24000, 24001),
    Call::Split(4, 1, 2),
    Call::Split(4, 3, 2),
    Call::Split(4, 2, 1),
    Call::Split(4, 2, 3),
    Call::Split(4, 1, 3),
    Call::Split(0, 1, 0),
    Call::Split(0, 0, 1),
    Call::Split(0, 0, 0),
    Call::Split(2, 1, 1),
    Call::Split(48000, 24000, 24000),
    Call::Down2_3(1, 2),
    Call::Down2_3(2, 2),
    Call::Down2_3(4, 2),
    Call::Down2_3(4, 1),
    Call::Down2_3(48001, 32000),
    Call::Down2_3(48002, 31999),
    Call::Down2_3(48003, 32002),
    Call::Down2_3(48003, 32001),
    Call::Down2_3(3, 1),
    Call::Down2_3(3, 0),
    Call::Down2_3(48000, 31999),
    Call::Down2_3(0, 0),
    Call::Down2_3(0, 3),
    Call::Down2_3(3, 2),
    Call::Down2_3(3, 4),
    Call::Down2_3(48000, 32000),
    Call::Down2_3(48000, 32002),
    Call::Line(0, 16),
    Call::Line(0, 0),
    Call::Line(7, 16),
    Call::Line(9, 15),
    Call::Line(8001, 16002),
    Call::Line(8008, 16016),
    Call::Line(8008, 16015),
    Call::Line(8, 15),
    Call::Line(8, 0),
    Call::Line(8000, 15999),
    Call::Line(8, 16),
    Call::Line(8, 17),
    Call::Line(8000, 16000),
    Call::NoPair(8, 16),
    Call::NoPair(0, 0),
    Call::NoPair(8008, 0),
];

// An answer's number and count.
fn numbers(answer: Result<usize, Refusal>) -> (u8, usize) {
    match answer {
        Ok(written) => (0, written),
        Err(refusal) => (refusal.number(), 0),
    }
}

// How many places are as they were.
fn untouched(out: &[i16]) -> usize {
    out.iter().filter(|x| **x == FILL).count()
}

// How many of those that are reported written, and of those behind them.
fn left_out(out: &[i16], written: usize) -> usize {
    out.get(..written).map_or(0, untouched)
}

fn behind(out: &[i16], written: usize) -> usize {
    out.get(written..).map_or(0, untouched)
}

// `left_out`: how many of the places that are reported written are as they were.
fn answered(
    rt: &HostRuntime,
    answer: Result<usize, Refusal>,
    left_out: usize,
    words: &[i32],
) -> io::Result<()> {
    let (row, written) = numbers(answer);
    let told = if left_out == 0 { "written" } else { "reported" };
    let words = if WORDS.starts_with(words) {
        "kept"
    } else {
        "changed"
    };
    print!(rt; "{row}, {written} {told}, words {words}, ")
}

fn asked(rt: &HostRuntime, name: &str, samples: usize, places: usize) -> io::Result<()> {
    print!(rt; "{name}, {samples} samples, {places} places: ")
}

// What a call left: its answer, its words and its output.
fn left(
    rt: &HostRuntime,
    answer: Result<usize, Refusal>,
    words: &[i32],
    out: &[i16],
) -> io::Result<()> {
    let (_, written) = numbers(answer);
    answered(rt, answer, left_out(out, written), words)?;
    println!(rt; "{} untouched", behind(out, written))
}

fn down2(rt: &HostRuntime, out: &mut [i16], input: &[i16]) -> io::Result<()> {
    asked(rt, "1/2 decimator", input.len(), out.len())?;
    let a = stages::silk_resampler_down2([WORDS[0], WORDS[1]], out, input);
    left(rt, a.answer, &a.state, out)
}

fn down2_3(rt: &HostRuntime, out: &mut [i16], input: &[i16]) -> io::Result<()> {
    asked(rt, "2/3 decimator", input.len(), out.len())?;
    let a = stages::silk_resampler_down2_3(WORDS, out, input);
    left(rt, a.answer, &a.state, out)
}

fn split(rt: &HostRuntime, low: &mut [i16], high: &mut [i16], input: &[i16]) -> io::Result<()> {
    print!(rt;
        "split, {} samples, {} and {} places: ",
        input.len(),
        low.len(),
        high.len()
    )?;
    let a = stages::silk_ana_filt_bank_1([WORDS[0], WORDS[1]], low, high, input);
    let (_, written) = numbers(a.answer);
    let left_out = left_out(low, written) | left_out(high, written);
    answered(rt, a.answer, left_out, &a.state)?;
    println!(rt;
        "{} and {} untouched",
        behind(low, written),
        behind(high, written)
    )
}

// The resampler's words are those of the doubler.
fn resample(
    rt: &HostRuntime,
    inKhz: u8,
    outKhz: u8,
    out: &mut [i16],
    input: &[i16],
) -> io::Result<()> {
    print!(rt;
        "{inKhz} to {outKhz}, {} samples, {} places: ",
        input.len(),
        out.len()
    )?;
    let s = Record {
        direction: 1,
        inKhz,
        outKhz,
        doubler: WORDS,
        samples: [0; 8],
        ar2: [0; 2],
        fir: [0; 36],
        delay: [0; 48],
    };
    let a = resampler::silk_resampler(s, out, input);
    left(rt, a.answer, &a.state.doubler, out)
}

fn samples(input: &[i16; MOST], n: usize) -> &[i16] {
    &input[..n.min(MOST)]
}

fn places(out: &mut [i16; MOST], n: usize) -> &mut [i16] {
    &mut out[..n.min(MOST)]
}

fn run(rt: &HostRuntime, call: Call) -> io::Result<()> {
    let input = [SAMPLE; MOST];
    let mut out = [FILL; MOST];
    let mut high = [FILL; MOST];
    match call {
        Call::Down2(n, m) => down2(rt, places(&mut out, m), samples(&input, n)),
        Call::Split(n, m, h) => {
            split(
                rt,
                places(&mut out, m),
                places(&mut high, h),
                samples(&input, n),
            )
        }
        Call::Down2_3(n, m) => down2_3(rt, places(&mut out, m), samples(&input, n)),
        Call::Line(n, m) => resample(rt, 8, 16, places(&mut out, m), samples(&input, n)),
        Call::NoPair(n, m) => resample(rt, 24, 48, places(&mut out, m), samples(&input, n)),
    }
}

fn main(rt: HostRuntime) -> io::Result<()> {
    for call in CALLS {
        run(&rt, call)?;
    }
    Ok(())
}
