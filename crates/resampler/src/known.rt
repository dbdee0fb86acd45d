// Records whose pair is supported: what a call, parking and resuming work on. Meaning: specs/Pairs.antt, specs/Record.antt.
ghost use Rattle.std.specs.Prelude.{◌≡◌, true, false, MatchOption};
ghost use Rattle.filters.specs.Stage.DownFir.{filter_of};
ghost use Rattle.resampler.specs.Kinds.{Is};
ghost use Rattle.resampler.specs.Pairs as Pairs;
ghost use Rattle.resampler.specs.Record as Records;
ghost use Rattle.resampler.specs.Resample.{rates_of};

use crate::path::{self, Kind};
use crate::{Record, filter, pairs};
use stages::{Filter, Rates};

// A record of a supported pair.
#[derive(Clone, Copy)]
pub struct Known {
    pub state: Record,
    ghost supported: { Pairs.supported (Records.pair_of state) ≡ true },
}

impl Known {
    // The record, where its pair is supported.
    pub fn of(state: Record) -> Option<Known>
        ensures { MatchOption result (Pairs.supported (Records.pair_of state) ≡ false) (λ known. known.state ≡ state) }
    {
        if pairs::supported(
            state.direction as usize,
            state.inKhz as usize,
            state.outKhz as usize,
        ) {
            Some(Known { state })
        } else {
            None
        }
    }

    // How many samples of the input it carries over.
    pub fn delay(&self) -> usize
        ensures { result ≡ Pairs.delay (Records.pair_of self.now.state) }
    {
        let s = &self.state;
        pairs::delay(s.direction as usize, s.inKhz as usize, s.outKhz as usize)
    }

    // What a stage that reads is told of the pair.
    pub fn rates(&self) -> Rates
        ensures { result ≡ rates_of (Records.pair_of self.now.state) }
    {
        let inKhz = self.state.inKhz as usize;
        let outKhz = self.state.outKhz as usize;
        Rates {
            inKhz,
            outKhz,
            increment: pairs::increment(inKhz, outKhz),
        }
    }

    pub fn kind(&self) -> Kind
        ensures { Is result (Records.pair_of self.now.state) }
    {
        path::at(self.state.inKhz as usize, self.state.outKhz as usize)
    }

    // The down filter of a lower rate.
    pub fn filter(&self) -> Filter<'static>
        ensures { filter_of result.order result.coefs.now ≡ Pairs.filter (Records.pair_of self.now.state) }
    {
        filter::at(self.state.inKhz as usize, self.state.outKhz as usize)
    }
}
