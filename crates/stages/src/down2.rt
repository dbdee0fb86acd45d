// The 1/2 decimator: one sample for each two.
// From silk/resampler/down2.rs. Meaning: specs/Entry.antt. Unlike the Rust, the words go in and out by value, and lengths
// that do not fit are refused.
ghost use Rattle.std.specs.Prelude.{◌≡◌, ◌/◌, ◌%◌, ◌≤◌, length};
ghost use Rattle.filters.specs.Lists.{pairs};
ghost use Rattle.filters.specs.Run.{run};
ghost use Rattle.stages.specs.Outcome.{Staged, outcome, answer_of};
ghost use Rattle.filters.specs.Stage.Down2.{down2_sum, down2_next, down2, down2_end};
ghost use Rattle.stages.specs.Entry.{down2_outcome};
ghost use Rattle.filters.proofs.Laws.Lengths.{down2-counts};

use crate::answer::Answered;
use crate::parts::{Pass, Stage, in_parts};
use crate::{answer, words};
use filters::down2::step;

// Fills the front of the output with the sums, and returns the words after the input.
fn sums(words: [i32; 2], out: &mut [i32], input: &[i16]) -> [i32; 2]
    requires { length input.now / 2 ≤ length out.old }
    ensures { Staged (run down2_sum down2_next words (pairs input.now)) (down2_end words input.now) out.old out.new result }
{
    let [mut even, mut odd] = words;
    for (k, xs) in input.chunks_exact(2).enumerate() {
        let d = step([even, odd], xs[0], xs[1]);
        out[k] = d.out;
        let [e, o] = d.words;
        even = e;
        odd = o;
    }
    [even, odd]
}

// The decimator, in parts of at most 960 samples.
#[derive(Clone, Copy)]
struct Decimator;

impl Stage for Decimator {
    type Words = [i32; 2];

    ghost unit = { λ it. 2 };

    ghost gives = { λ it. 1 };

    ghost most = { λ it. 480 };

    ghost made = { λ it. down2 };

    ghost next = { λ it. down2_end };

    ghost counts = { λ it. down2-counts };

    fn part(&self, words: [i32; 2], out: &mut [i16], input: &[i16]) -> Pass<[i32; 2]> {
        let written = input.len() / 2;
        let mut buf = [0i32; 480];
        let after = sums(words, &mut buf, input);
        words::narrow(out, 11, &buf[..written]);
        Pass {
            written,
            words: after,
        }
    }
}

// Takes an even number of samples, at most 48,000, and an output of just half as many places.
pub fn silk_resampler_down2(words: [i32; 2], out: &mut [i16], input: &[i16]) -> Answered<[i32; 2]>
    ensures { outcome (answer_of result.answer) result.state out.new ≡ down2_outcome words input.now out.old }
{
    let half = input.len() / 2;
    if let Some(refusal) = answer::half_refusal(input.len(), out.len() == half) {
        return Answered::refused(refusal, words);
    }
    let p = in_parts(&Decimator, 960, words, out, input);
    Answered::done(half, p.words)
}
