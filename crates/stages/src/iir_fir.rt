// The interpolator: the doubler, and then eight taps for each output.
// From silk/resampler/iir_fir.rs. Meaning: Reader.antt and Stage/IirFir.antt of filters. Unlike the Rust, the words go in and
// out by value, and the number of outputs is counted.
ghost use Rattle.std.specs.Prelude.{◌≡◌, ◌++◌, ◌+◌, ◌*◌, ◌-◌, ◌/◌, ◌%◌, ◌<◌, ◌≤◌, length};
ghost use Rattle.filters.specs.Reader.{outputs, Steady};
ghost use Rattle.stages.specs.Outcome.{Staged};
ghost use Rattle.filters.specs.Stage.Up2Hq.{up2, up2_end};
ghost use Rattle.filters.proofs.Laws.Lengths.{iir_fir_batch-length};
ghost use Rattle.filters.specs.Stage.IirFir.{iir_fir_batch, iir_fir_carried, iir_fir_pass, iir_fir_end};

use crate::parts::{Pass, Stage, in_parts};
use crate::{reading, up2_hq};
use filters::iir_fir::Interpolation;
use filters::rates::Rates;

// The words of the interpolator: those of the doubler, and the last eight doubled samples.
#[repr(C)]
#[derive(Clone, Copy)]
pub struct IirFirWords {
    pub doubler: [i32; 6],
    pub samples: [i16; 8],
}

// Puts the carried samples and behind them the doubled input to the front of the buffer; returns the doubler's words.
fn fill(buf: &mut [i16], doubler: [i32; 6], carried: &[i16], input: &[i16]) -> [i32; 6]
    requires { length carried.now + 2 * length input.now ≤ length buf.old }
    ensures { Staged (carried.now ++ up2 doubler input.now) (up2_end doubler input.now) buf.old buf.new result }
{
    let order = carried.len();
    buf[..order].copy_from_slice(carried);
    up2_hq::silk_resampler_private_up2_HQ(doubler, &mut buf[order..], input)
}

// The interpolator at two rates, in batches of at most 10 ms.
#[derive(Clone, Copy)]
struct Interpolator {
    rates: Rates,
    ghost steady: { Steady (2 * rates.inKhz) rates },
    ghost few: { rates.inKhz ≤ 16 },
}

impl Stage for Interpolator {
    type Words = IirFirWords;

    ghost unit = { λ it. it.rates.inKhz };

    ghost gives = { λ it. it.rates.outKhz };

    ghost most = { λ it. 10 };

    ghost made = { λ it w. iir_fir_batch it.rates (w.doubler, w.samples) };

    ghost next = { λ it w xs. record { doubler = up2_end w.doubler xs; samples = iir_fir_carried w.doubler w.samples xs } };

    ghost counts = { λ it w. iir_fir_batch-length it.rates (w.doubler, w.samples) };

    fn part(&self, words: IirFirWords, out: &mut [i16], input: &[i16]) -> Pass<IirFirWords> {
        let r = self.rates;
        let n = 2 * input.len();
        let end = 8 + n;
        let given = words.doubler;
        let carried = words.samples;
        let mut buf = [0i16; 328];
        let doubler = fill(&mut buf, given, &carried, input);
        let written = input.len() / r.inKhz * r.outKhz;
        reading::read::<Interpolation, 480>(
            &Interpolation,
            r.increment,
            written,
            15,
            &buf[..end],
            out,
        );
        let mut samples = [0i16; 8];
        samples.copy_from_slice(&buf[n..end]);
        Pass {
            written,
            words: IirFirWords { doubler, samples },
        }
    }
}

// A pass over whole milliseconds, in batches of at most 10: each takes the samples behind those of the last, and is lent
// what the last left of the output.
pub fn silk_resampler_private_IIR_FIR(
    r: Rates,
    s: IirFirWords,
    out: &mut [i16],
    input: &[i16],
) -> Pass<IirFirWords>
    requires steady { Steady (2 * r.inKhz) r × (r.inKhz ≤ 16) }
    requires milliseconds { (length input.now % r.inKhz ≡ 0) × (outputs r (length input.now) ≤ length out.old) }
    ensures written { result.written ≡ outputs r (length input.now) }
    ensures staged { Staged (iir_fir_pass r (s.doubler, s.samples) input.now) (iir_fir_end r (s.doubler, s.samples) input.now) out.old out.new (result.words.doubler, result.words.samples) }
{
    in_parts(&Interpolator { rates: r }, 10 * r.inKhz, s, out, input)
}
