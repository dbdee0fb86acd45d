// Pairs of rates, in kHz, from silk/resampler/mod.rs: which are supported, their delays and their increments.
// Meaning: specs/Pairs.antt.
ghost use Rattle.std.specs.Prelude.{◌≡◌, true, ◌+◌, ◌^◌, ◌<◌, ◌≤◌};
ghost use Rattle.resampler.specs.Pairs as Pairs;
ghost use Rattle.resampler.specs.Pairs.{pair, rate_id, path, up2x, raised};

use crate::path::{self, Kind};

// The delays, in samples of the input: a row for each rate in, a column for each rate out. `tied` proves by computation that
// each matrix is the definition's.

// From 8, 12, 16, 24 and 48 kHz to 8, 12 and 16.
pub const delay_matrix_enc: [[usize; 3]; 5] = [
    [6, 0, 3],
    [0, 7, 3],
    [0, 1, 10],
    [0, 2, 6],
    [18, 10, 12],
];

// From 8, 12 and 16 kHz to 8, 12, 16, 24 and 48.
pub const delay_matrix_dec: [[usize; 5]; 3] = [[4, 0, 2, 0, 0], [0, 9, 4, 7, 4], [0, 3, 12, 7, 7]];

// Asks its caller to show that these are the matrices of specs/Pairs.antt, and does nothing.
fn delays_are(enc: [[usize; 3]; 5], dec: [[usize; 5]; 3])
    requires { (enc ≡ Pairs.delay_matrix_enc) × (dec ≡ Pairs.delay_matrix_dec) }
{}

// That this is proved is the tie.
pub fn tied() {
    delays_are(delay_matrix_enc, delay_matrix_dec);
}

// A rate's row or column in the matrices; 5 is none.
pub fn rate_id(khz: usize) -> usize
    ensures { result ≡ rate_id khz }
{
    match khz {
        8 => 0,
        12 => 1,
        16 => 2,
        24 => 3,
        48 => 4,
        _ => 5,
    }
}

// Whether direction 1, the encoder's, or 0, the decoder's, goes from one rate to the other.
pub fn supported(direction: usize, inKhz: usize, outKhz: usize) -> bool
    ensures { result ≡ Pairs.supported (pair direction inKhz outKhz) }
{
    let i = rate_id(inKhz);
    let o = rate_id(outKhz);
    match direction {
        1 => (i < 5) & (o < 3),
        0 => (i < 3) & (o < 5),
        _ => false,
    }
}

// How many samples of the input a pair carries over.
pub fn delay(direction: usize, inKhz: usize, outKhz: usize) -> usize
    requires { Pairs.supported (pair direction inKhz outKhz) ≡ true }
    ensures { result ≡ Pairs.delay (pair direction inKhz outKhz) }
{
    let i = rate_id(inKhz);
    let o = rate_id(outKhz);
    if direction == 0 {
        return delay_matrix_dec[i][o];
    }
    delay_matrix_enc[i][o]
}

// One more where the outputs of a second read fewer samples than the goal.
fn raise(increment: usize, outHz: usize, goal: usize) -> usize
    requires { (increment < 16777216) × (outHz ≤ 48000) }
    ensures { (result ≡ raised 1 outHz goal increment) × (result ≤ increment + 1) }
{
    if increment * outHz / 65536 < goal {
        return increment + 1;
    }
    increment
}

// How many samples of the buffer there are for each of the input: 2 where doubled samples are read.
fn doubled(inKhz: usize, outKhz: usize) -> usize
    requires { inKhz ≤ 48 }
    ensures { (result ≡ 2 ^ up2x (path (pair 0 inKhz outKhz))) × (0 < result) × (result ≤ 2) }
{
    match path::at(inKhz, outKhz) {
        Kind::Interpolator => 2,
        _ => 1,
    }
}

// How far apart two outputs are read, in 65536ths of a sample.
pub fn increment(inKhz: usize, outKhz: usize) -> usize
    requires { (inKhz ≤ 48) × (8 ≤ outKhz) × (outKhz ≤ 48) }
    ensures { result ≡ Pairs.increment (pair 0 inKhz outKhz) }
{
    let f = doubled(inKhz, outKhz);
    let inHz = 1000 * inKhz;
    let outHz = 1000 * outKhz;
    let goal = inHz * f;
    let start = inHz * (16384 * f) / outHz * 4;
    let a = raise(start, outHz, goal);
    let b = raise(a, outHz, goal);
    let c = raise(b, outHz, goal);
    raise(c, outHz, goal)
}
