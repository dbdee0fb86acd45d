// The split into two bands, one sample of each for each two.
// From silk/ana_filt_bank_1.rs. Meaning: specs/Entry.antt. Unlike the Rust, the words go in and out by value, and lengths
// that do not fit are refused.
ghost use Rattle.std.specs.Prelude.{◌≡◌, ◌/◌, ◌≤◌, length};
ghost use Rattle.stages.specs.Outcome.{Staged, outcome, answer_of};
ghost use Rattle.filters.specs.Stage.AnaFiltBank1.{split_low, split_high, split_end};
ghost use Rattle.stages.specs.Entry.{split_outcome};

use crate::answer::{self, Answered};
use filters::ana_filt_bank_1::step;

// Fills the front of both bands and returns the words after the input.
fn bands(words: [i32; 2], low: &mut [i16], high: &mut [i16], input: &[i16]) -> [i32; 2]
    requires { (length input.now / 2 ≤ length low.old) × (length input.now / 2 ≤ length high.old) }
    ensures low { Staged (split_low words input.now) (split_end words input.now) low.old low.new result }
    ensures high { Staged (split_high words input.now) (split_end words input.now) high.old high.new result }
{
    let [mut even, mut odd] = words;
    for (k, xs) in input.chunks_exact(2).enumerate() {
        let b = step([even, odd], xs[0], xs[1]);
        low[k] = b.low;
        high[k] = b.high;
        let [e, o] = b.words;
        even = e;
        odd = o;
    }
    [even, odd]
}

// Takes an even number of samples, at most 48,000, and two outputs of just half as many places.
pub fn silk_ana_filt_bank_1(
    words: [i32; 2],
    low: &mut [i16],
    high: &mut [i16],
    input: &[i16],
) -> Answered<[i32; 2]>
    ensures { outcome (answer_of result.answer) result.state (low.new, high.new) ≡ split_outcome words input.now low.old high.old }
{
    let half = input.len() / 2;
    let fit = (low.len() == half) & (high.len() == half);
    if let Some(refusal) = answer::half_refusal(input.len(), fit) {
        return Answered::refused(refusal, words);
    }
    let after = bands(words, low, high, input);
    Answered::done(half, after)
}
