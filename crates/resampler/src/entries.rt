// Which entries of a record are live, the record with the others zero, and whether they are. Meaning: specs/Record.antt.
ghost use Rattle.std.specs.Prelude.{◌≡◌, ◌≤◌};
ghost use Rattle.filters.specs.Lists.{every};
ghost use Rattle.resampler.specs.Pairs as Pairs;
ghost use Rattle.resampler.specs.Pairs.{path};
ghost use Rattle.resampler.specs.Record as Records;
ghost use Rattle.resampler.specs.Block.{zero?};

use crate::Record;
use crate::known::Known;
use crate::path::Kind;

// How many entries of each array are live.
#[derive(Clone, Copy)]
struct Live {
    doubler: usize,
    samples: usize,
    ar2: usize,
    fir: usize,
    delay: usize,
}

// The record with its dead entries zero.
pub fn cleaned(known: &Known) -> Record
    ensures { result ≡ Records.cleaned known.now.state }
{
    let n = living(known);
    let mut s = known.state;
    s.doubler[n.doubler..].fill(0);
    s.samples[n.samples..].fill(0);
    s.ar2[n.ar2..].fill(0);
    s.fir[n.fir..].fill(0);
    s.delay[n.delay..].fill(0);
    s
}

// Whether the dead entries are zero.
pub fn dead_zero(known: &Known) -> bool
    ensures { result ≡ every zero? (Records.dead known.now.state) }
{
    let n = living(known);
    let s = known.state;
    let inDoubler = s.doubler[n.doubler..].iter().all(|x| x == &0);
    let inSamples = s.samples[n.samples..].iter().all(|x| x == &0);
    let inAr2 = s.ar2[n.ar2..].iter().all(|x| x == &0);
    let inFir = s.fir[n.fir..].iter().all(|x| x == &0);
    let inDelay = s.delay[n.delay..].iter().all(|x| x == &0);
    inDoubler & inSamples & inAr2 & inFir & inDelay
}

// Which entries a pair's path uses, and as many delay samples as its delay.
fn living(known: &Known) -> Live
    ensures counts { let s = known.now.state in
        let n = Records.living (path (Records.pair_of s)) in
        (result.doubler ≡ n.doubler) × (result.samples ≡ n.samples) × (result.ar2 ≡ n.ar2) × (result.fir ≡ n.fir) × (result.delay ≡ Pairs.delay (Records.pair_of s)) }
    ensures within_arrays { (result.doubler ≤ 6) × (result.samples ≤ 8) × (result.ar2 ≤ 2) × (result.fir ≤ 36) × (result.delay ≤ 48) }
{
    let none = Live {
        doubler: 0,
        samples: 0,
        ar2: 0,
        fir: 0,
        delay: known.delay(),
    };
    match known.kind() {
        Kind::Copy => none,
        Kind::Doubler => Live { doubler: 6, ..none },
        Kind::Interpolator => Live {
            doubler: 6,
            samples: 8,
            ..none
        },
        Kind::Down => Live {
            ar2: 2,
            fir: known.filter().order,
            ..none
        },
    }
}
