// The word arithmetic that every stage is made of: sums and differences that wrap, products rounded down, narrowing.
// Meaning: specs/Fixed.antt. The Rust writes these out in place, as the reference code's macros do.
#![tactic(auto)]

ghost use Rattle.std.specs.Prelude.{◌≡◌, ◌<◌, pos, nat_abs, ◌+ℤ◌, ◌-ℤ◌, ◌*ℤ◌};
ghost use Rattle.fixed.specs.Fixed.{wrapped, times, clipped, narrowed};

pub mod ar2;

// a + b in 32 bits.
pub fn add(a: i32, b: i32) -> i32
    ensures { result ≡ wrapped (a +ℤ b) }
{
    a.wrapping_add(b)
}

// a - b in 32 bits.
pub fn sub(a: i32, b: i32) -> i32
    ensures { result ≡ wrapped (a -ℤ b) }
{
    a.wrapping_sub(b)
}

// 4 x in 32 bits.
pub fn shl2(x: i32) -> i32
    ensures { result ≡ wrapped (pos 4 *ℤ x) }
{
    x << 2
}

// c y / 65536, rounded down. With c below 65536 in size the result fits the word.
pub fn mul_q16(c: i32, y: i32) -> i32
    requires { nat_abs c < 65536 }
    ensures { result ≡ times c y }
{
    mul_wide(c as i64, y)
}

// The same for a coefficient that stands in 64 bits, as the taps do: silk_SMULWB.
pub fn mul_wide(c: i64, y: i32) -> i32
    requires { nat_abs c < 65536 }
    ensures { result ≡ times c y }
{
    ((c * (y as i64)) >> 16) as i32
}

// r held to what an i16 can hold: silk_SAT16.
pub fn clip(r: i32) -> i16
    ensures { result ≡ clipped r }
{
    r.clamp(-32768, 32767) as i16
}

// x / 2^n rounded to the nearest, halves upwards, and clipped: silk_SAT16 of silk_RSHIFT_ROUND.
// Adding 2^(n-1) to x first would wrap for the largest words; halving (x >> (n - 1)) + 1 cannot.
pub fn narrow(x: i32, n: u32) -> i16
    requires { (1 < n) × (n < 32) }
    ensures { result ≡ narrowed n x }
{
    clip(((x >> (n - 1)) + 1) >> 1)
}
