// AR2, the two-pole filter before the taps of a down filter.
// From silk/resampler/ar2.rs. Meaning: Stage/Ar2.antt of filters. Unlike the Rust, the words go in and out by value.
ghost use Rattle.std.specs.Prelude.{◌<◌, ◌≤◌, nat_abs, length};
ghost use Rattle.filters.specs.Lists.{◌!◌};
ghost use Rattle.stages.specs.Outcome.{Staged};
ghost use Rattle.filters.specs.Stage.Ar2.{ar2, ar2_end};

use fixed::ar2::{filtered, moved};

// Filters the input into the front of the output and returns the words after it. AQ14 is a table that begins with A0 and A1.
// Two samples a turn, with the words as two numbers, take fewer instructions than one.
pub fn silk_resampler_private_AR2(
    state: [i32; 2],
    outQ8: &mut [i32],
    input: &[i16],
    AQ14: &[i64],
) -> [i32; 2]
    requires { (length input.now ≤ length outQ8.old) × (2 ≤ length AQ14.now) × (nat_abs (AQ14.now ! 0) < 65536) × (nat_abs (AQ14.now ! 1) < 65536) }
    ensures { Staged (ar2 AQ14.now state input.now) (ar2_end AQ14.now state input.now) outQ8.old outQ8.new result }
{
    let pairs = input.chunks_exact(2);
    let last = pairs.remainder();
    let [mut s0, mut s1] = state;
    for (k, xs) in pairs.enumerate() {
        let s = [s0, s1];
        let first = filtered(s, xs[0]);
        outQ8[2 * k] = first;
        let between = moved(s, first, AQ14);
        let second = filtered(between, xs[1]);
        outQ8[2 * k + 1] = second;
        let [a, b] = moved(between, second, AQ14);
        s0 = a;
        s1 = b;
    }
    let s = [s0, s1];
    if let [x] = last {
        let out32 = filtered(s, *x);
        outQ8[input.len() - 1] = out32;
        return moved(s, out32, AQ14);
    }
    s
}
