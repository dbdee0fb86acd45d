// The doubler, a sample at a time: two chains of three allpass sections.
// From silk/resampler/up2_hq.rs. Meaning: specs/Stage/Up2Hq.antt.
ghost use Rattle.std.specs.Prelude.{◌≡◌};
ghost use Rattle.filters.specs.Reader.{Small};
ghost use Rattle.filters.specs.Section.{row_out, row_next};
ghost use Rattle.filters.specs.Stage.Up2Hq.{up2_raw, up2_next};

use crate::step::Step;
use crate::{allpass, rom};

// Three sections in a row.
fn three(c: [i32; 3], words: [i32; 3], x: i32) -> Step<i32, [i32; 3]>
    requires { Small c }
    ensures { (result.out ≡ row_out c words x) × (result.words ≡ row_next c words x) }
{
    let p = allpass::allpass(c[0], words[0], x);
    let q = allpass::allpass(c[1], words[1], p.out);
    let r = allpass::allpass(c[2], words[2], q.out);
    Step {
        out: r.out,
        words: [p.words, q.words, r.words],
    }
}

// The two outputs for a sample, before narrowing.
pub fn step(words: [i32; 6], x: i16) -> Step<[i32; 2], [i32; 6]>
    ensures { (result.out ≡ up2_raw words x) × (result.words ≡ up2_next words x) }
{
    let [a, b, c, d, e, f] = words;
    let y = allpass::scale(x);
    let even = three(rom::silk_resampler_up2_hq_0, [a, b, c], y);
    let odd = three(rom::silk_resampler_up2_hq_1, [d, e, f], y);
    let [a, b, c] = even.words;
    let [d, e, f] = odd.words;
    Step {
        out: [even.out, odd.out],
        words: [a, b, c, d, e, f],
    }
}
