// A stage that is fed in parts: each takes the samples behind those of the last, and is lent what the last left of the output.
ghost use Rattle.std.specs.Prelude.{◌≡◌, ℕ, ℤ, List, ◌+◌, ◌*◌, ◌/◌, ◌%◌, ◌<◌, ◌≤◌, length};
ghost use Rattle.filters.specs.Run.{pass_out, pass_end};
ghost use Rattle.stages.specs.Outcome.{Staged};

// How many samples were written, and the words after them.
#[derive(Clone, Copy)]
pub struct Pass<W> {
    pub written: usize,
    pub words: W,
}

pub trait Stage {
    type Words: Copy;

    // How many samples belong together, how many outputs they make, and how many such units a part has at most.
    ghost unit: { Self → ℕ };

    ghost gives: { Self → ℕ };

    ghost most: { Self → ℕ };

    // What a part puts out, and the words after it.
    ghost made: { Self → Self.Words → List ℤ → List ℤ };

    ghost next: { Self → Self.Words → List ℤ → Self.Words };

    fn part(&self, words: Self::Words, out: &mut [i16], input: &[i16]) -> Pass<Self::Words>
        requires { (length input.now % unit self.now ≡ 0) × (length input.now ≤ most self.now * unit self.now) × (length input.now / unit self.now * gives self.now ≤ length out.old) }
        ensures written { result.written ≡ length input.now / unit self.now * gives self.now }
        ensures staged { Staged (made self.now words input.now) (next self.now words input.now) out.old out.new result.words };

    ghost counts: { (s : Self) (w : Self.Words) (xs : List ℤ) → length (made s w xs) ≡ length xs / unit s * gives s };
}

// The whole input, in parts of `size` samples.
pub fn in_parts<S: Stage>(
    stage: &S,
    size: usize,
    words: S::Words,
    out: &mut [i16],
    input: &[i16],
) -> Pass<S::Words>
    requires sizes { (0 < S.unit stage.now) × (0 < size) × (size ≡ S.most stage.now * S.unit stage.now) }
    requires whole { (length input.now % S.unit stage.now ≡ 0) × (length input.now / S.unit stage.now * S.gives stage.now ≤ length out.old) }
    ensures written { result.written ≡ length input.now / S.unit stage.now * S.gives stage.now }
    ensures staged { Staged (pass_out (S.made stage.now) (S.next stage.now) size words input.now) (pass_end (S.next stage.now) size words input.now) out.old out.new result.words }
{
    let mut w = words;
    let mut written = 0;
    for xs in input.chunks(size) {
        let p = stage.part(w, &mut out[written..], xs);
        written += p.written;
        w = p.words;
    }
    Pass { written, words: w }
}
