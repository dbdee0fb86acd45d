// What the outputs of a stage are read by, at fractional positions. Meaning: specs/Reader.antt.
ghost use Rattle.std.specs.Prelude.{◌≡◌, ℕ, ℤ, List, ◌<◌, ◌≤◌, length};

pub trait Reader {
    type Sample: Copy;

    // From how many samples an output is read, and what it is, before it is narrowed.
    ghost reach: { Self → ℕ };

    ghost reading: { Self → ℕ → List Self.Sample → ℤ };

    // One output: the samples from a whole position on, at a fraction.
    fn output(&self, fraction: usize, from: &[Self::Sample]) -> i32
        requires { (fraction < 65536) × (reach self.now ≤ length from.now) }
        ensures { result ≡ reading self.now fraction from.now };
}
