// One call of the program `convert`: up to 100 ms of bytes in, the bytes of what they make out. Meaning: specs/Call.antt.
ghost use Rattle.std.specs.Prelude.{◌≡◌, ◌*◌, ◌≤◌, length, take};
ghost use Rattle.stages.specs.Outcome.{over};
ghost use Rattle.resampler.specs.Record.{pair_of};
ghost use Rattle.resampler.specs.Resample.{made, converted, after, Calling};
ghost use Rattle.little_endian.specs.Bytes.{laid, words_at};
ghost use Rattle.line.specs.Call.{Asks, Leaves};

use resampler::Record;

// The record after a call, the bytes that it put out, and how many it left over.
#[derive(Clone, Copy)]
pub struct Called {
    pub record: Record,
    pub count: usize,
    pub left: usize,
}

// Converts the whole milliseconds of `input`, and puts what they make to the front of `out`.
#[tactic(auto, using(crate::proofs::Laws::Sizes::sizes))]
pub fn call(s: Record, input: &[u8], out: &mut [u8]) -> Called
    requires { Asks s (length input.now) (length out.old) }
    ensures { Leaves s input.now out.old out.new result.record result.count result.left }
{
    let inKhz = s.inKhz as usize;
    let ms = input.len() / (2 * inKhz);
    let left = input.len() % (2 * inKhz);
    if ms == 0 {
        return Called {
            record: s,
            count: 0,
            left,
        };
    }
    let n = ms * inKhz;
    let m = ms * (s.outKhz as usize);
    let xs = samples_in(input, n);
    let record = convert(s, &xs[..n], out, m);
    Called {
        record,
        count: 2 * m,
        left,
    }
}

// The first n samples of some bytes, and zeros behind them.
fn samples_in(input: &[u8], n: usize) -> [i16; 4800]
    requires { (n ≤ 4800) × (2 * n ≤ length input.now) }
    ensures { take n result ≡ words_at 2 0 n input.now }
{
    let mut xs = [0; 4800];
    little_endian::words_at(input, 0, &mut xs[..n]);
    xs
}

// Converts samples, and puts the bytes of the m that they make to the front of `out`.
fn convert(s: Record, xs: &[i16], out: &mut [u8], m: usize) -> Record
    requires { Calling s (length xs.now) 4800 × (length xs.now ≤ 100 * s.inKhz) × (m ≡ made (pair_of s) (length xs.now)) × (2 * m ≤ length out.old) }
    ensures { (result ≡ after s xs.now) × (out.new ≡ over (laid 2 (converted s xs.now)) out.old) }
{
    let mut ys = [0; 4800];
    let resampled = resampler::silk_resampler(s, &mut ys, xs);
    little_endian::put_words(out, 0, &ys[..m]);
    resampled.state
}
