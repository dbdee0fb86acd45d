// The allpass section, alone and one each on the even and the odd samples of a signal.
// Meaning: specs/Section.antt. The Rust writes it out in place, in the doubler, the 1/2 decimator and the split.
ghost use Rattle.std.specs.Prelude.{◌≡◌, ◌<◌, nat_abs};
ghost use Rattle.filters.specs.Section.{scaled, section_out, section_next, even_out, odd_out, halves_next};

use crate::step::Step;

// What the two sections put out, and their words: the even section's, then the odd one's.
#[derive(Clone, Copy)]
pub struct Halves {
    pub even: i32,
    pub odd: i32,
    pub words: [i32; 2],
}

// A sample at the sections' scale.
pub fn scale(x: i16) -> i32
    ensures { result ≡ scaled x }
{
    1024 * (x as i32)
}

pub fn allpass(a: i32, s: i32, x: i32) -> Step<i32, i32>
    requires { nat_abs a < 65536 }
    ensures { (result.out ≡ section_out a s x) × (result.words ≡ section_next a s x) }
{
    let t = fixed::mul_q16(a, fixed::sub(x, s));
    let out = fixed::add(s, t);
    let words = fixed::add(x, t);
    Step { out, words }
}

// Section a on the even sample x and section b on the odd sample y.
pub fn both(a: i32, b: i32, words: [i32; 2], x: i16, y: i16) -> Halves
    requires { (nat_abs a < 65536) × (nat_abs b < 65536) }
    ensures outputs { (result.even ≡ even_out a words (x, y)) × (result.odd ≡ odd_out b words (x, y)) }
    ensures words { result.words ≡ halves_next a b words (x, y) }
{
    let e = allpass(a, words[0], scale(x));
    let o = allpass(b, words[1], scale(y));
    Halves {
        even: e.out,
        odd: o.out,
        words: [e.words, o.words],
    }
}
