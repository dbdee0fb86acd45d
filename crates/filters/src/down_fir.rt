// One output of a down filter: as many taps as the order. From silk/resampler/down_fir.rs. Meaning: specs/Stage/DownFir.antt.
ghost use Rattle.std.specs.Prelude.{◌≡◌, ◌<◌};
ghost use Rattle.filters.specs.Stage.DownFir.{Fitting, filter_of, filtered};

use crate::reader::Reader;
use crate::{rom, taps};

// A filter: two constants of AR2 and then the rows of taps, the order, and the number of rows.
#[derive(Clone, Copy)]
pub struct Filter<'a> {
    pub coefs: &'a [i64],
    pub order: usize,
    pub rows: usize,
    pub ghost fitting: { Fitting order rows coefs.now },
}

// The six, by the ratio of the rates out and in.
pub const DOWN_3_4: Filter<'static> = Filter {
    coefs: &rom::silk_Resampler_3_4_COEFS,
    order: rom::RESAMPLER_DOWN_ORDER_FIR0,
    rows: 3,
};

pub const DOWN_2_3: Filter<'static> = Filter {
    coefs: &rom::silk_Resampler_2_3_COEFS,
    order: rom::RESAMPLER_DOWN_ORDER_FIR0,
    rows: 2,
};

pub const DOWN_1_2: Filter<'static> = Filter {
    coefs: &rom::silk_Resampler_1_2_COEFS,
    order: rom::RESAMPLER_DOWN_ORDER_FIR1,
    rows: 1,
};

pub const DOWN_1_3: Filter<'static> = Filter {
    coefs: &rom::silk_Resampler_1_3_COEFS,
    order: rom::RESAMPLER_DOWN_ORDER_FIR2,
    rows: 1,
};

pub const DOWN_1_4: Filter<'static> = Filter {
    coefs: &rom::silk_Resampler_1_4_COEFS,
    order: rom::RESAMPLER_DOWN_ORDER_FIR2,
    rows: 1,
};

pub const DOWN_1_6: Filter<'static> = Filter {
    coefs: &rom::silk_Resampler_1_6_COEFS,
    order: rom::RESAMPLER_DOWN_ORDER_FIR2,
    rows: 1,
};

// A filter of order 18 alone: a loop over its outputs that holds no sums of outer samples takes a tenth fewer instructions.
#[derive(Clone, Copy)]
pub struct Apart<'a> {
    pub filter: Filter<'a>,
    pub ghost eighteen: { filter.order ≡ 18 },
}

impl Reader for Apart<'_> {
    type Sample = i32;

    ghost reach = { λ it. it.filter.order };

    ghost reading = { λ it. filtered (filter_of it.filter.order it.filter.coefs.now) };

    // Nine taps of the fraction's row forward, nine of its mirror backward.
    fn output(&self, fraction: usize, from: &[i32]) -> i32 {
        let f = self.filter;
        let k = fraction * f.rows / 65536;
        let row = 2 + 9 * k;
        let mirror = 2 + 9 * (f.rows - 1 - k);
        let front = taps::forward(0, &f.coefs[row..row + 9], &from[..9]);
        taps::backward(front, &f.coefs[mirror..mirror + 9], &from[9..18])
    }
}

// Of any order that fits: those above 18 sum outer samples.
impl Reader for Filter<'_> {
    type Sample = i32;

    ghost reach = { λ f. f.order };

    ghost reading = { λ f. filtered (filter_of f.order f.coefs.now) };

    fn output(&self, fraction: usize, from: &[i32]) -> i32 {
        if self.order <= 18 {
            let apart = Apart { filter: *self };
            return apart.output(fraction, from);
        }
        let end = 2 + self.order / 2;
        taps::inward(&self.coefs[2..end], &from[..self.order])
    }
}
