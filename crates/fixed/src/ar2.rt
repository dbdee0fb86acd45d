// One step of AR2, the two-pole filter before the taps of a down filter; the loop over it is a stage.
// From silk/resampler/ar2.rs. Meaning: specs/Ar2.antt.
ghost use Rattle.std.specs.Prelude.{◌≡◌, ◌<◌, ◌≤◌, nat_abs, length};
ghost use Rattle.fixed.specs.Ar2.{◌!◌, ar2_out, ar2_after};

// The output for one sample.
pub fn filtered(s: [i32; 2], x: i16) -> i32
    ensures { result ≡ ar2_out s x }
{
    crate::add(s[0], 256 * (x as i32))
}

// The words after an output.
pub fn moved(s: [i32; 2], out32: i32, AQ14: &[i64]) -> [i32; 2]
    requires { (2 ≤ length AQ14.now) × (nat_abs (AQ14.now ! 0) < 65536) × (nat_abs (AQ14.now ! 1) < 65536) }
    ensures { result ≡ ar2_after AQ14.now s out32 }
{
    let q = crate::shl2(out32);
    let s0 = crate::add(s[1], crate::mul_wide(AQ14[0], q));
    let s1 = crate::mul_wide(AQ14[1], q);
    [s0, s1]
}
