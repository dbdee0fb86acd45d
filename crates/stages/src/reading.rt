// Outputs that are read from a buffer at fractional positions. Meaning: Reader.antt of filters.
ghost use Rattle.std.specs.Prelude.{◌≡◌, ℤ, List, ◌+◌, ◌*◌, ◌-◌, ◌<◌, ◌≤◌, length};
ghost use Rattle.fixed.specs.Fixed.{narrowed};
ghost use Rattle.filters.specs.Reader.{read as reading};
ghost use Rattle.stages.specs.Outcome.{over};

use crate::words;
use filters::reader::Reader;

// As many outputs as there are places, an increment apart, before they are narrowed.
fn sums<R: Reader>(reader: &R, increment: usize, buf: &[R::Sample], out: &mut [i32])
    requires begins_inside { (R.reach reader.now ≤ length buf.now) × (length out.old * increment < 65536 * (length buf.now - R.reach reader.now) + increment) }
    requires sizes { (increment < 16777216) × (length buf.now ≤ 516) }
    ensures { out.new ≡ reading (R.reading reader.now) increment (length out.old) buf.now }
{
    let mut p = 0;
    for j in 0..out.len() {
        out[j] = reader.output(p % 65536, &buf[p / 65536..]);
        p += increment;
    }
}

// The first n, narrowed, which takes eight at a time apart from the loop that makes them.
pub fn read<R: Reader, const MOST: usize>(
    reader: &R,
    increment: usize,
    n: usize,
    bits: u32,
    buf: &[R::Sample],
    out: &mut [i16],
)
    requires begins_inside { (R.reach reader.now ≤ length buf.now) × (n * increment < 65536 * (length buf.now - R.reach reader.now) + increment) }
    requires sizes { (1 < bits) × (bits < 32) × (increment < 16777216) × (length buf.now ≤ 516) × (n ≤ MOST) × (MOST ≤ 480) × (n ≤ length out.old) }
    ensures { out.new ≡ over (reading (λ fraction xs. narrowed bits (R.reading reader.now fraction xs)) increment n buf.now) out.old }
{
    let mut raw = [0i32; MOST];
    sums(reader, increment, buf, &mut raw[..n]);
    words::narrow(out, bits, &raw[..n]);
}
