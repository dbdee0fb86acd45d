// Words and samples as bytes, the low one first, both ways. Meaning: specs/Bytes.antt.
#![tactic(auto)]

ghost use Rattle.std.specs.Prelude.{◌+◌, ◌*◌, ◌^◌, ◌<◌, ◌≤◌, ◌≡◌, ◌++◌, ℕ, length, take, drop};
ghost use Rattle.std.proofs.Common.{rules};
ghost use Rattle.little_endian.specs.Bytes as Bytes;

// A signed integer that stands in a block: how many bytes it has there, and the number that they are.
pub trait Word: Copy {
    const BYTES: usize;

    ghost BYTES: { ℕ };

    ghost bits: { Self → ℕ };

    ghost of_bits: { ℕ → Self };

    fn bits(self) -> u32
        ensures { result ≡ bits self };

    fn of_bits(n: u32) -> Self
        requires { n < 256 ^ BYTES }
        ensures { result ≡ of_bits n };

    ghost few: { BYTES ≤ 4 };
}

impl Word for i32 {
    const BYTES: usize = 4;

    ghost BYTES = { 4 };

    ghost bits = { Bytes.bits_of 4 };

    ghost of_bits = { Bytes.word_of 4 };

    fn bits(self) -> u32 {
        self.cast_unsigned()
    }

    fn of_bits(n: u32) -> i32 {
        n.cast_signed()
    }

    ghost few = { Prim.search rules };
}

impl Word for i16 {
    const BYTES: usize = 2;

    ghost BYTES = { 2 };

    ghost bits = { Bytes.bits_of 2 };

    ghost of_bits = { Bytes.word_of 2 };

    fn bits(self) -> u32 {
        u32::from(i16::cast_unsigned(self))
    }

    fn of_bits(n: u32) -> i16 {
        (n as u16).cast_signed()
    }

    ghost few = { Prim.search rules };
}

// Puts the words one behind the other, from a place on.
pub fn put_words<W: Word>(block: &mut [u8], at: usize, words: &[W])
    requires { at + W.BYTES * length words.now ≤ length block.old }
    ensures { let b = block.old in
        let ws = words.now in
        block.new ≡ take at b ++ Bytes.laid_by W.bits W.BYTES ws ++ drop (at + W.BYTES * length ws) b }
{
    for (j, word) in words.iter().enumerate() {
        put(block, at + W::BYTES * j, W::BYTES, word.bits());
    }
}

// Reads as many words as there is room for, from a place on.
pub fn words_at<W: Word>(block: &[u8], at: usize, out: &mut [W])
    requires { at + W.BYTES * length out.old ≤ length block.now }
    ensures { out.new ≡ Bytes.read_by W.of_bits W.BYTES at (length out.old) block.now }
{
    for (j, word) in out.iter_mut().enumerate() {
        *word = W::of_bits(number(block, at + W::BYTES * j, W::BYTES));
    }
}

// Puts k bytes of a number at a place.
pub fn put(block: &mut [u8], at: usize, k: usize, bits: u32)
    requires { at + k ≤ length block.old }
    ensures { let b = block.old in
        block.new ≡ take at b ++ Bytes.bytes k bits ++ drop (at + k) b }
{
    let mut left = bits;
    for byte in &mut block[at..at + k] {
        *byte = (left % 256) as u8;
        left = left / 256;
    }
}

// The number whose k bytes stand from a place on, and that it is of k bytes.
pub fn number(block: &[u8], at: usize, k: usize) -> u32
    requires { (k ≤ 4) × (at + k ≤ length block.now) }
    ensures { (result ≡ Bytes.value (take k (drop at block.now))) × (result < 256 ^ k) }
{
    let mut n: u32 = 0;
    for i in (0..k).rev() {
        n = 256 * n + u32::from(block[at + i]);
    }
    n
}
