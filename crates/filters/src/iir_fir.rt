// One output of the interpolator: eight taps. From silk/resampler/iir_fir.rs. Meaning: specs/Stage/IirFir.antt.
ghost use Rattle.std.specs.Prelude.{◌≡◌, ◌<◌, ◌≤◌, length};
ghost use Rattle.filters.specs.Stage.IirFir.{interpolation};

use crate::reader::Reader;
use crate::{rom, taps};

// The interpolator's reader: its table is a constant.
#[derive(Clone, Copy)]
pub struct Interpolation;

impl Reader for Interpolation {
    type Sample = i16;

    ghost reach = { λ it. 8 };

    ghost reading = { λ it. interpolation };

    // The fraction's row forward for samples 0 to 3, its mirror backward for 4 to 7.
    fn output(&self, fraction: usize, from: &[i16]) -> i32 {
        let k = fraction * 12 / 65536;
        let front = taps::forward(0, &rom::silk_resampler_frac_FIR_12[k], &from[..4]);
        taps::backward(front, &rom::silk_resampler_frac_FIR_12[11 - k], &from[4..8])
    }
}
