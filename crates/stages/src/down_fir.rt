// The down filters: AR2, and then as many taps as the order for each output.
// From silk/resampler/down_fir.rs. Meaning: Reader.antt and Stage/DownFir.antt of filters. Unlike the Rust, the words go in and
// out by value, the filter comes with the call, and the number of outputs is counted.
ghost use Rattle.std.specs.Prelude.{◌≡◌, ◌++◌, ◌+◌, ◌*◌, ◌-◌, ◌/◌, ◌%◌, ◌<◌, ◌≤◌, nat_abs, length, take};
ghost use Rattle.filters.specs.Lists.{◌!◌, padded};
ghost use Rattle.filters.specs.Reader.{read, outputs, Steady};
ghost use Rattle.stages.specs.Outcome.{over, Staged};
ghost use Rattle.filters.specs.Stage.Ar2.{ar2 as filtered, ar2_end};
ghost use Rattle.filters.proofs.Laws.Lengths.{down_batch-length};
ghost use Rattle.filters.specs.Stage.DownFir.{filter_of, fir, down_batch, down_fir_carried, down_pass, down_end};

use crate::parts::{Pass, Stage, in_parts};
use crate::{ar2, reading, words};
use filters::down_fir::{Apart, Filter};
use filters::rates::Rates;

// The words of a down filter: those of AR2, and the carried ones, of which the first `order` are live.
#[repr(C)]
#[derive(Clone, Copy)]
pub struct DownWords {
    pub ar2: [i32; 2],
    pub fir: [i32; 36],
}

// Puts the carried words and behind them what AR2 makes of the input to the front of the buffer; returns AR2's words.
fn fill(buf: &mut [i32], ar2: [i32; 2], carried: &[i32], input: &[i16], cs: &[i64]) -> [i32; 2]
    requires { (length carried.now + length input.now ≤ length buf.old) × (2 ≤ length cs.now) × (nat_abs (cs.now ! 0) < 65536) × (nat_abs (cs.now ! 1) < 65536) }
    ensures { Staged (carried.now ++ filtered cs.now ar2 input.now) (ar2_end cs.now ar2 input.now) buf.old buf.new result }
{
    let order = carried.len();
    buf[..order].copy_from_slice(carried);
    ar2::silk_resampler_private_AR2(ar2, &mut buf[order..], input, cs)
}

// A filter at two rates, in batches of at most 10 ms.
#[derive(Clone, Copy)]
struct Lowering<'a> {
    filter: Filter<'a>,
    rates: Rates,
    ghost steady: { Steady rates.inKhz rates },
    ghost few: { rates.outKhz ≤ 16 },
}

impl Lowering<'_> {
    // The first n outputs; whether the order is 18 is asked once.
    fn read(&self, n: usize, buf: &[i32], out: &mut [i16])
        requires begins_inside { (self.now.filter.order ≤ length buf.now) × (n * self.now.rates.increment < 65536 * (length buf.now - self.now.filter.order) + self.now.rates.increment) }
        requires sizes { (self.now.rates.increment < 16777216) × (length buf.now ≤ 516) × (n ≤ 160) × (n ≤ length out.old) }
        ensures { out.new ≡ over (read (fir (filter_of self.now.filter.order self.now.filter.coefs.now)) self.now.rates.increment n buf.now) out.old }
    {
        let increment = self.rates.increment;
        let filter = self.filter;
        if filter.order == 18 {
            reading::read::<Apart<'_>, 160>(&Apart { filter }, increment, n, 6, buf, out);
        } else {
            reading::read::<Filter<'_>, 160>(&filter, increment, n, 6, buf, out);
        }
    }
}

impl Stage for Lowering<'_> {
    type Words = DownWords;

    ghost unit = { λ it. it.rates.inKhz };

    ghost gives = { λ it. it.rates.outKhz };

    ghost most = { λ it. 10 };

    ghost made = { λ it w. down_batch (filter_of it.filter.order it.filter.coefs.now) it.rates (w.ar2, take it.filter.order w.fir) };

    ghost next = { λ it w xs. record { ar2 = ar2_end it.filter.coefs.now w.ar2 xs; fir = padded 36 (down_fir_carried (filter_of it.filter.order it.filter.coefs.now) w.ar2 (take it.filter.order w.fir) xs) } };

    ghost counts = { λ it w. down_batch-length (filter_of it.filter.order it.filter.coefs.now) it.rates (w.ar2, take it.filter.order w.fir) };

    fn part(&self, words: DownWords, out: &mut [i16], input: &[i16]) -> Pass<DownWords> {
        let r = self.rates;
        let order = self.filter.order;
        let n = input.len();
        let end = order + n;
        let given = words.ar2;
        let carried = words.fir;
        let mut buf = [0i32; 516];
        let ar2 = fill(&mut buf, given, &carried[..order], input, self.filter.coefs);
        let written = n / r.inKhz * r.outKhz;
        self.read(written, &buf[..end], out);
        let fir = words::carried(0, &buf[n..end]);
        Pass {
            written,
            words: DownWords { ar2, fir },
        }
    }
}

// A pass over whole milliseconds, in batches of at most 10: each takes the samples behind those of the last, and is lent
// what the last left of the output. Of the words given only the live ones are read; of those returned
// the others are zero.
pub fn silk_resampler_private_down_FIR(
    r: Rates,
    filter: Filter<'_>,
    s: DownWords,
    out: &mut [i16],
    input: &[i16],
) -> Pass<DownWords>
    requires steady { Steady r.inKhz r × (r.outKhz ≤ 16) }
    requires milliseconds { (length input.now % r.inKhz ≡ 0) × (outputs r (length input.now) ≤ length out.old) }
    ensures written { result.written ≡ outputs r (length input.now) }
    ensures staged { Staged (down_pass (filter_of filter.entry.order filter.entry.coefs.now) r (s.ar2, take filter.entry.order s.fir) input.now) (down_end (filter_of filter.entry.order filter.entry.coefs.now) r (s.ar2, take filter.entry.order s.fir) input.now) out.old out.new (result.words.ar2, take filter.entry.order result.words.fir) }
    ensures dead { result.words.fir ≡ padded 36 (take filter.entry.order result.words.fir) }
{
    let given = s.fir;
    let ar2 = s.ar2;
    let fir = words::carried(0, &given[..filter.order]);
    let live = DownWords { ar2, fir };
    in_parts(
        &Lowering { filter, rates: r },
        10 * r.inKhz,
        live,
        out,
        input,
    )
}
