// Sums of products of taps and samples, each sum wrapped. Meaning: specs/Reader.antt.
// The Rust writes out the 18, 12, 18 or 8 products of an output one below the other.
ghost use Rattle.std.specs.Prelude.{◌≡◌, ℤ, Bool, true, reverse, ◌+◌, ◌*◌, ◌<◌, ◌≤◌, ◌/◌, ◌%◌, pos, ◌+ℤ◌, ◌*ℤ◌, length, drop};
ghost use Rattle.filters.specs.Lists.{◌!◌, every};
ghost use Rattle.fixed.specs.Fixed.{wrapped, times};
ghost use Rattle.filters.specs.Reader.{sum, small?};
ghost use Rattle.filters.specs.Stage.DownFir.{outer_sums};

// A tap, and what it makes of a sample.
pub trait Tap: Copy {
    type Sample: Copy;

    ghost product: { Self → Self.Sample → ℤ };

    ghost fits: { Self → Bool };

    // A product more.
    fn more(self, acc: i32, y: Self::Sample) -> i32
        requires { fits self ≡ true }
        ensures { result ≡ wrapped (acc +ℤ product self y) };
}

// Of a down filter and of the 2/3 decimator: each product is rounded down.
impl Tap for i64 {
    type Sample = i32;

    ghost product = { times };

    ghost fits = { small? };

    fn more(self, acc: i32, y: i32) -> i32 {
        fixed::add(acc, fixed::mul_wide(self, y))
    }
}

// Of the interpolator: each product is whole.
impl Tap for i32 {
    type Sample = i16;

    ghost product = { ◌*ℤ◌ };

    ghost fits = { small? };

    fn more(self, acc: i32, x: i16) -> i32 {
        fixed::add(acc, self * (x as i32))
    }
}

// The taps with the samples, first to last.
pub fn forward<T: Tap>(acc: i32, taps: &[T], ys: &[T::Sample]) -> i32
    requires { (length taps.now ≤ length ys.now) × (every T.fits taps.now ≡ true) }
    ensures { result ≡ sum T.product acc taps.now ys.now }
{
    let mut all = acc;
    for (c, y) in taps.iter().zip(ys) {
        all = c.more(all, *y);
    }
    all
}

// The same with the taps last to first.
pub fn backward<T: Tap>(acc: i32, taps: &[T], ys: &[T::Sample]) -> i32
    requires { (length taps.now ≤ length ys.now) × (every T.fits taps.now ≡ true) }
    ensures { result ≡ sum T.product acc (reverse taps.now) ys.now }
{
    let mut all = acc;
    for (c, y) in taps.iter().rev().zip(ys) {
        all = c.more(all, *y);
    }
    all
}

// The sum of the k-th sample and its counterpart from the end.
fn outer(ys: &[i32], k: usize) -> i32
    requires { k < length ys.now / 2 }
    ensures { result ≡ outer_sums (length ys.now) ys.now ! k }
{
    fixed::add(ys[k], ys[ys.len() - 1 - k])
}

// Three taps from the k-th on: the products that are left behind them make of the result what all from the k-th on make of acc.
fn three_inward(acc: i32, taps: &[i64], ys: &[i32], k: usize) -> i32
    requires { (k + 3 ≤ length taps.now) × (length taps.now ≡ length ys.now / 2) × (every small? taps.now ≡ true) }
    ensures { let outer = outer_sums (length ys.now) ys.now in
        sum times result (drop (k + 3) taps.now) (drop (k + 3) outer) ≡ sum times acc (drop k taps.now) (drop k outer) }
{
    let a = taps[k].more(acc, outer(ys, k));
    let b = taps[k + 1].more(a, outer(ys, k + 1));
    taps[k + 2].more(b, outer(ys, k + 2))
}

// Half as many taps as samples, with the sums of outer samples. Of loops whose bound it can't see the compiler makes vectors of 64-bit
// products, which take half as many instructions again: so three at a turn, and at most six turns, which it unrolls.
pub fn inward(taps: &[i64], ys: &[i32]) -> i32
    requires { (length taps.now % 3 ≡ 0) × (length taps.now ≤ 18) × (length taps.now ≡ length ys.now / 2) × (every small? taps.now ≡ true) }
    ensures { result ≡ sum times (pos 0) taps.now (outer_sums (length ys.now) ys.now) }
{
    let mut all = 0;
    for turn in 0..(taps.len() / 3).min(6) {
        all = three_inward(all, taps, ys, 3 * turn);
    }
    all
}
