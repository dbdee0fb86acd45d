// The two ends of the program `convert`: the block that it begins with, and the one that it ends in.
ghost use Rattle.std.specs.Prelude.{◌≡◌, true, length, MatchResult};
ghost use Rattle.stages.specs.Outcome.{row_of};
ghost use Rattle.resampler.specs.Pairs.{supported};
ghost use Rattle.resampler.specs.Record.{pair_of};
ghost use Rattle.resampler.specs.Block.{block_of, resume_row};
ghost use Rattle.line.specs.Call.{Begins};

use resampler::Record;
use stages::Refusal;

// The record in a block, or what the block is refused for.
pub fn begin(block: &[u8]) -> Result<Record, Refusal>
    ensures { MatchResult result (Begins block.now 0) (λ refusal. row_of refusal ≡ resume_row block.now) }
{
    let resumed = resampler::resume(block);
    resumed.answer?;
    Ok(resumed.state)
}

// Puts the record's block.
pub fn finish(s: Record, block: &mut [u8])
    requires { (supported (pair_of s) ≡ true) × (length block.old ≡ 512) }
    ensures { block.new ≡ block_of s }
{
    resampler::park(s, block);
}
