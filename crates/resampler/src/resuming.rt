// Resuming a line from its parked block. Meaning: specs/Block.antt.
ghost use Rattle.std.specs.Prelude.{if◌then◌else◌, ◌≡◌, not, eqb, take, drop, get_or};
ghost use Rattle.filters.specs.Lists.{every};
ghost use Rattle.stages.specs.Outcome.{outcome, answer_of, row};
ghost use Rattle.little_endian.specs.Bytes as Bytes;
ghost use Rattle.resampler.specs.Block as Block;

use crate::known::Known;
use crate::{Record, block, entries, init};
use stages::{Answered, Refusal};

// Takes only a block that parking can have written.
pub fn resume(block: &[u8]) -> Answered<Record>
    ensures { outcome (answer_of result.answer) result.state tt ≡ Block.resume_outcome block.now }
{
    let Ok(block) = <&[u8; 512]>::try_from(block) else {
        return init::refused(Refusal::NotABlock);
    };
    if let Some(refusal) = seal_refusal(block) {
        return init::refused(refusal);
    }
    let Some(known) = Known::of(record_in(block)) else {
        return init::refused(Refusal::BlockPairUnsupported);
    };
    if entries::dead_zero(&known) && pads_zero(block) {
        Answered::done(0, known.state)
    } else {
        init::refused(Refusal::DeadNotZero)
    }
}

// What the check and then the layout are refused for.
fn seal_refusal(block: &[u8; 512]) -> Option<Refusal>
    ensures { let b = block.now in
        row result ≡ (if not (eqb (Bytes.value (drop 508 b)) (Block.check b)) then 9 else if not (eqb (get_or b 3 0) Block.layout) then 10 else 0) }
{
    if little_endian::number(block, 508, 4) != block::check(block) {
        Some(Refusal::CheckDiffers)
    } else if block[3] != 1 {
        Some(Refusal::LayoutUnknown)
    } else {
        None
    }
}

// The record that stands in a block, whatever it is.
fn record_in(block: &[u8; 512]) -> Record
    ensures { result ≡ Block.record_in block.now }
{
    let mut s = init::fresh(block[0], block[1], block[2]);
    little_endian::words_at(block, 4, &mut s.doubler);
    little_endian::words_at(block, 28, &mut s.samples);
    little_endian::words_at(block, 44, &mut s.ar2);
    little_endian::words_at(block, 52, &mut s.fir);
    little_endian::words_at(block, 196, &mut s.delay);
    s
}

// Whether the padding is zero.
fn pads_zero(block: &[u8; 512]) -> bool
    ensures { result ≡ every (eqb 0) (take 216 (drop 292 block.now)) }
{
    block[292..508].iter().all(|x| *x == 0)
}
