// The 2/3 decimator: two samples for each three.
// From silk/resampler/down2_3.rs. Meaning: specs/Entry.antt. Unlike the Rust, the words go in and out by value, lengths that
// do not fit are refused, and there is no buffer.
ghost use Rattle.std.specs.Prelude.{◌≡◌, ◌*◌, ◌/◌, ◌%◌, ◌<◌, ◌≤◌, length};
ghost use Rattle.stages.specs.Outcome.{Staged, outcome, answer_of, row};
ghost use Rattle.filters.specs.Stage.Down2_3.{down23, down23_end};
ghost use Rattle.stages.specs.Entry.{down23_row, down23_outcome};

use crate::answer::{self, Answered, Refusal};
use filters::down2_3::group_of;

// Fills the front of the output and returns the words after the input.
fn decimate(words: [i32; 6], out: &mut [i16], input: &[i16]) -> [i32; 6]
    requires { (length input.now % 3 ≡ 0) × (2 * (length input.now / 3) ≤ length out.old) }
    ensures { Staged (down23 words input.now) (down23_end words input.now) out.old out.new result }
{
    let mut w = words;
    for (k, xs) in input.chunks_exact(3).enumerate() {
        let g = group_of(w, xs[0], xs[1], xs[2]);
        let [first, second] = g.out;
        out[2 * k] = first;
        out[2 * k + 1] = second;
        w = g.words;
    }
    w
}

// What n samples and an output of `room` places are refused for.
fn third_refusal(n: usize, room: usize) -> Option<Refusal>
    ensures { row result ≡ down23_row n room }
{
    if n % 3 != 0 {
        return Some(Refusal::NotInGroups);
    }
    if answer::MOST_SAMPLES < n {
        return Some(Refusal::TooLong);
    }
    if room < 2 * (n / 3) {
        Some(Refusal::OutputTooShort)
    } else {
        None
    }
}

// Takes a multiple of three samples, at most 48,000, and an output with room for two of each three.
pub fn silk_resampler_down2_3(words: [i32; 6], out: &mut [i16], input: &[i16]) -> Answered<[i32; 6]>
    ensures { outcome (answer_of result.answer) result.state out.new ≡ down23_outcome words input.now out.old }
{
    if let Some(refusal) = third_refusal(input.len(), out.len()) {
        return Answered::refused(refusal, words);
    }
    let after = decimate(words, out, input);
    Answered::done(2 * (input.len() / 3), after)
}
