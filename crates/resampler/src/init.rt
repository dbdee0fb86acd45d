// Opening a line. From silk_resampler_init of silk/resampler/mod.rs. Meaning: specs/Entry.antt. Unlike the Rust, a pair that is
// not supported is refused, and the record is returned by value.
ghost use Rattle.std.specs.Prelude.{◌≡◌, Err, unwrap_or};
ghost use Rattle.stages.specs.Outcome.{outcome, answer_of};
ghost use Rattle.resampler.specs.Pairs.{pair};
ghost use Rattle.resampler.specs.Record as Records;
ghost use Rattle.resampler.specs.Entry as Entry;

use crate::{Record, pairs};
use stages::{Answered, Refusal};

// The kHz of a rate in Hz, where they are whole.
fn khz(hz: i32) -> Option<usize>
    ensures { unwrap_or result 0 ≡ Entry.khz hz }
{
    let Ok(n) = usize::try_from(hz) else {
        return None;
    };
    if n % 1000 == 0 { Some(n / 1000) } else { None }
}

// 1 for the encoder, 0 for the decoder.
fn direction_of(forEnc: i32) -> usize
    ensures { result ≡ Entry.direction_of forEnc }
{
    usize::from(forEnc != 0)
}

// A pair's record with every word and sample zero.
pub fn fresh(direction: u8, inKhz: u8, outKhz: u8) -> Record
    ensures { result ≡ Records.fresh (pair direction inKhz outKhz) }
{
    Record {
        direction,
        inKhz,
        outKhz,
        doubler: [0; 6],
        samples: [0; 8],
        ar2: [0; 2],
        fir: [0; 36],
        delay: [0; 48],
    }
}

// What a refused opening or resuming answers, with the blank record.
pub fn refused(refusal: Refusal) -> Answered<Record>
    ensures { (result.answer ≡ Err refusal) × (result.state ≡ Records.blank) }
{
    Answered::refused(refusal, fresh(0, 0, 0))
}

// Takes the rates in Hz, and whether the direction is the encoder's, which any number but 0 says.
pub fn silk_resampler_init(Fs_Hz_in: i32, Fs_Hz_out: i32, forEnc: i32) -> Answered<Record>
    ensures { outcome (answer_of result.answer) result.state tt ≡ Entry.open_outcome Fs_Hz_in Fs_Hz_out forEnc }
{
    let direction = direction_of(forEnc);
    let (Some(inKhz), Some(outKhz)) = (khz(Fs_Hz_in), khz(Fs_Hz_out)) else {
        return refused(Refusal::PairNotListed);
    };
    if !pairs::supported(direction, inKhz, outKhz) {
        return refused(Refusal::PairNotListed);
    }
    Answered::done(0, fresh(direction as u8, inKhz as u8, outKhz as u8))
}
