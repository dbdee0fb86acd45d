// Parking a line: its record as a block of 512 bytes. Meaning: specs/Block.antt.
ghost use Rattle.std.specs.Prelude.{◌≡◌, ◌++◌, length, take, drop};
ghost use Rattle.stages.specs.Outcome.{outcome, answer_of};
ghost use Rattle.little_endian.specs.Bytes as Bytes;
ghost use Rattle.resampler.specs.Block as Block;

use crate::known::Known;
use crate::{Record, block, entries};
use stages::{Answered, Refusal};

// Writes the block of a record, its dead entries as zero; the record itself is returned as it was given.
pub fn park(s: Record, block: &mut [u8]) -> Answered<Record>
    ensures { outcome (answer_of result.answer) result.state block.new ≡ Block.park_outcome s block.old }
{
    let Some(known) = Known::of(s) else {
        return Answered::refused(Refusal::NoSupportedPair, s);
    };
    if block.len() != 512 {
        return Answered::refused(Refusal::NotABlock, s);
    }
    put_body(block, entries::cleaned(&known));
    seal(block);
    Answered::done(0, s)
}

// Puts the check of what stands before it into the last four bytes.
fn seal(to: &mut [u8])
    requires { length to.old ≡ 512 }
    ensures { let b = to.old in
        to.new ≡ take 508 b ++ Bytes.bytes 4 (Block.check b) }
{
    let sum = block::check(to);
    little_endian::put(to, 508, 4, sum);
}

// Puts the record as it is to the front, with the layout behind its pair, and its padding: all but the check.
fn put_body(to: &mut [u8], s: Record)
    requires { length to.old ≡ 512 }
    ensures { to.new ≡ Block.body s ++ drop 508 to.old }
{
    to[..4].copy_from_slice(&[s.direction, s.inKhz, s.outKhz, 1]);
    little_endian::put_words(to, 4, &s.doubler);
    little_endian::put_words(to, 28, &s.samples);
    little_endian::put_words(to, 44, &s.ar2);
    little_endian::put_words(to, 52, &s.fir);
    little_endian::put_words(to, 196, &s.delay);
    to[292..508].fill(0);
}
