// The split, two samples at a time. From silk/ana_filt_bank_1.rs. Meaning: specs/Stage/AnaFiltBank1.antt.
// The coefficients are constants.
ghost use Rattle.std.specs.Prelude.{◌≡◌};
ghost use Rattle.filters.specs.Stage.AnaFiltBank1.{low_out, high_out, split_next};

use crate::{allpass, rom};

// Both bands' outputs for two samples, and the words after them.
#[derive(Clone, Copy)]
pub struct Banded {
    pub low: i16,
    pub high: i16,
    pub words: [i32; 2],
}

pub fn step(words: [i32; 2], x: i16, y: i16) -> Banded
    ensures bands { (result.low ≡ low_out words (x, y)) × (result.high ≡ high_out words (x, y)) }
    ensures words { result.words ≡ split_next words (x, y) }
{
    let h = allpass::both(rom::A_fb1_21, rom::A_fb1_20, words, x, y);
    let low = fixed::narrow(fixed::add(h.odd, h.even), 11);
    let high = fixed::narrow(fixed::sub(h.odd, h.even), 11);
    let words = h.words;
    Banded { low, high, words }
}
