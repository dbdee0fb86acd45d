// The doubler: two samples for each one.
// From silk/resampler/up2_hq.rs. Meaning: Stage/Up2Hq.antt of filters. Unlike the Rust, the words go in and out by value.
ghost use Rattle.std.specs.Prelude.{◌≡◌, ◌+◌, ◌*◌, ◌<◌, ◌≤◌, length};
ghost use Rattle.filters.specs.Lists.{joined};
ghost use Rattle.filters.specs.Run.{run};
ghost use Rattle.stages.specs.Outcome.{Staged};
ghost use Rattle.filters.proofs.Laws.Lengths.{up2-counts};
ghost use Rattle.filters.specs.Stage.Up2Hq.{up2_raw, up2_next, up2, up2_end};

use crate::parts::{Pass, Stage, in_parts};
use crate::words;
use filters::up2_hq::step;

// Fills the front of the output with two words for each sample, and returns those after the input.
fn chains(state: [i32; 6], out: &mut [i32], input: &[i16]) -> [i32; 6]
    requires { 2 * length input.now ≤ length out.old }
    ensures { Staged (joined (run up2_raw up2_next state input.now)) (up2_end state input.now) out.old out.new result }
{
    let mut s = state;
    for (k, x) in input.iter().enumerate() {
        let d = step(s, *x);
        let [even, odd] = d.out;
        out[2 * k] = even;
        out[2 * k + 1] = odd;
        s = d.words;
    }
    s
}

// The doubler, in parts of at most 160 samples.
#[derive(Clone, Copy)]
struct Doubler;

impl Stage for Doubler {
    type Words = [i32; 6];

    ghost unit = { λ it. 1 };

    ghost gives = { λ it. 2 };

    ghost most = { λ it. 160 };

    ghost made = { λ it. up2 };

    ghost next = { λ it. up2_end };

    ghost counts = { λ it. up2-counts };

    fn part(&self, words: [i32; 6], out: &mut [i16], input: &[i16]) -> Pass<[i32; 6]> {
        let written = 2 * input.len();
        let mut buf = [0i32; 320];
        let after = chains(words, &mut buf, input);
        words::narrow(out, 10, &buf[..written]);
        Pass {
            written,
            words: after,
        }
    }
}

// Fills the front of the output with two samples for each of the input, part by part, and returns the words after it.
pub fn silk_resampler_private_up2_HQ(state: [i32; 6], out: &mut [i16], input: &[i16]) -> [i32; 6]
    requires { 2 * length input.now ≤ length out.old }
    ensures { Staged (up2 state input.now) (up2_end state input.now) out.old out.new result }
{
    let p = in_parts(&Doubler, 160, state, out, input);
    p.words
}
