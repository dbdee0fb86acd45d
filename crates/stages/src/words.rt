// Many words at a time: copies, narrowing, and what is carried on.
ghost use Rattle.std.specs.Prelude.{◌<◌, ◌≤◌, ◌≡◌, ◌++◌, ◌-◌, map, length, replicate};
ghost use Rattle.fixed.specs.Fixed.{narrowed};
ghost use Rattle.stages.specs.Outcome.{over};

// Copies samples to the front of the output.
pub fn copy_samples(out: &mut [i16], from: &[i16])
    requires { length from.now ≤ length out.old }
    ensures { out.new ≡ over from.now out.old }
{
    for (k, x) in from.iter().enumerate() {
        out[k] = *x;
    }
}

// Narrows the words by n bits into the front of the output. Apart from the loop that makes them, this takes eight at a time.
pub fn narrow(out: &mut [i16], n: u32, from: &[i32])
    requires { (1 < n) × (n < 32) × (length from.now ≤ length out.old) }
    ensures { out.new ≡ over (map (narrowed n) from.now) out.old }
{
    for (k, x) in from.iter().enumerate() {
        out[k] = fixed::narrow(*x, n);
    }
}

// What is carried on, with zeros behind it.
pub fn carried<T: Copy, const N: usize>(zero: T, from: &[T]) -> [T; N]
    requires { length from.now ≤ N }
    ensures { result ≡ from.now ++ replicate (N - length from.now) zero }
{
    let mut all = [zero; N];
    all[..from.len()].copy_from_slice(from);
    all
}
