// The 1/2 decimator, two samples at a time. From silk/resampler/down2.rs. Meaning: specs/Stage/Down2.antt.
ghost use Rattle.std.specs.Prelude.{◌≡◌};
ghost use Rattle.filters.specs.Stage.Down2.{down2_sum, down2_next};

use crate::step::Step;
use crate::{allpass, rom};

// The two sections' outputs for two samples added up.
pub fn step(words: [i32; 2], x: i16, y: i16) -> Step<i32, [i32; 2]>
    ensures { (result.out ≡ down2_sum words (x, y)) × (result.words ≡ down2_next words (x, y)) }
{
    let h = allpass::both(
        rom::silk_resampler_down2_1,
        rom::silk_resampler_down2_0,
        words,
        x,
        y,
    );
    let words = h.words;
    let out = fixed::add(h.even, h.odd);
    Step { out, words }
}
