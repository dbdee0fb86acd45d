// The 2/3 decimator, three samples at a time. From silk/resampler/down2_3.rs. Meaning: specs/Stage/Down2_3.antt.
// Unlike the Rust, which filters a whole buffer first, each three samples are filtered and read at once.
ghost use Rattle.std.specs.Prelude.{◌≡◌, [], ◌∷◌};
ghost use Rattle.fixed.specs.Fixed.{narrowed};
ghost use Rattle.filters.specs.Rom.{silk_Resampler_2_3_COEFS_LQ};
ghost use Rattle.filters.specs.Reader.{Small};
ghost use Rattle.filters.specs.Stage.Ar2.{ar2, ar2_end};
ghost use Rattle.filters.specs.Stage.Down2_3.{tapped, down23, down23_end};

use crate::step::Step;
use crate::{rom, taps};
use fixed::ar2;

// What AR2 makes of three samples.
fn filtered_three(s: [i32; 2], x: i16, y: i16, z: i16) -> Step<[i32; 3], [i32; 2]>
    ensures outputs { result.out ≡ ar2 silk_Resampler_2_3_COEFS_LQ s (x ∷ y ∷ z ∷ []) }
    ensures words { result.words ≡ ar2_end silk_Resampler_2_3_COEFS_LQ s (x ∷ y ∷ z ∷ []) }
{
    let t = &rom::silk_Resampler_2_3_COEFS_LQ;
    let y0 = ar2::filtered(s, x);
    let a = ar2::moved(s, y0, t);
    let y1 = ar2::filtered(a, y);
    let b = ar2::moved(a, y1, t);
    let y2 = ar2::filtered(b, z);
    let words = ar2::moved(b, y2, t);
    Step {
        out: [y0, y1, y2],
        words,
    }
}

// Four taps, each with its sample.
fn four(t: [i64; 4], ys: [i32; 4]) -> i16
    requires { Small t }
    ensures { result ≡ narrowed 6 (tapped t ys) }
{
    fixed::narrow(taps::forward(0, &t, &ys), 6)
}

// The first output of a group is read from its start, the second from one sample later.
pub fn group_of(words: [i32; 6], x: i16, y: i16, z: i16) -> Step<[i16; 2], [i32; 6]>
    ensures outputs { result.out ≡ down23 words (x ∷ y ∷ z ∷ []) }
    ensures words { result.words ≡ down23_end words (x ∷ y ∷ z ∷ []) }
{
    let t = rom::silk_Resampler_2_3_COEFS_LQ;
    let [w0, w1, w2, w3, s0, s1] = words;
    let three = filtered_three([s0, s1], x, y, z);
    let [y0, y1, y2] = three.out;
    let [s0, s1] = three.words;
    let first = four([t[2], t[3], t[5], t[4]], [w0, w1, w2, w3]);
    let second = four([t[4], t[5], t[3], t[2]], [w1, w2, w3, y0]);
    Step {
        out: [first, second],
        words: [w3, y0, y1, y2, s0, s1],
    }
}
