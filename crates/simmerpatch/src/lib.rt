// The entry points as C functions: numbers, slices and the record by value, and nothing asked of a caller that C's types
// leave to him but that a pointer and the length behind it belong together. Meaning: specs/Face.antt.
#![tactic(auto)]

ghost use Rattle.std.specs.Prelude.{◌≡◌};
ghost use Rattle.stages.specs.Entry.{down2_outcome, split_outcome, down23_outcome};
ghost use Rattle.resampler.specs.Entry.{open_outcome, resample_outcome};
ghost use Rattle.resampler.specs.Block.{park_outcome, resume_outcome};
ghost use Rattle.simmerpatch.specs.Face.{Told, TellsAnswer};

use resampler::Record;
use stages::{Answered, Refusal};

// The words of the 1/2 decimator and of the split; of the 2/3 decimator. C passes no array by value, but a struct of one.
#[repr(C)]
#[derive(Clone, Copy)]
pub struct Two {
    pub w: [i32; 2],
}

#[repr(C)]
#[derive(Clone, Copy)]
pub struct Six {
    pub w: [i32; 6],
}

// The number of the row that refuses the call, or 0; how many samples were written; the state after them.
#[repr(C)]
#[derive(Clone, Copy)]
pub struct Line {
    pub refused: u8,
    pub written: usize,
    pub record: Record,
}

#[repr(C)]
#[derive(Clone, Copy)]
pub struct Halves {
    pub refused: u8,
    pub written: usize,
    pub words: Two,
}

#[repr(C)]
#[derive(Clone, Copy)]
pub struct Thirds {
    pub refused: u8,
    pub written: usize,
    pub words: Six,
}

// What C is told of an answer: two numbers, and the state.
impl From<Answered<Record>> for Line {
    ghost from_gives = { λ a line. TellsAnswer a.answer line.refused line.written × (line.«record» ≡ a.state) };

    fn from(a: Answered<Record>) -> Line {
        let (refused, written) = numbers(a.answer);
        Line {
            refused,
            written,
            record: a.state,
        }
    }
}

impl From<Answered<[i32; 2]>> for Halves {
    ghost from_gives = { λ a halves. TellsAnswer a.answer halves.refused halves.written × (halves.words.w ≡ a.state) };

    fn from(a: Answered<[i32; 2]>) -> Halves {
        let Answered { answer, state: w } = a;
        let (refused, written) = numbers(answer);
        Halves {
            refused,
            written,
            words: Two { w },
        }
    }
}

impl From<Answered<[i32; 6]>> for Thirds {
    ghost from_gives = { λ a thirds. TellsAnswer a.answer thirds.refused thirds.written × (thirds.words.w ≡ a.state) };

    fn from(a: Answered<[i32; 6]>) -> Thirds {
        let Answered { answer, state: w } = a;
        let (refused, written) = numbers(answer);
        Thirds {
            refused,
            written,
            words: Six { w },
        }
    }
}

fn numbers(answer: Result<usize, Refusal>) -> (u8, usize)
    ensures { TellsAnswer answer result.0 result.1 }
{
    match answer {
        Ok(written) => (0, written),
        Err(refusal) => (refusal.number(), 0),
    }
}

#[unsafe(no_mangle)]
pub extern "C" fn simmerpatch_open(inHz: i32, outHz: i32, forEnc: i32) -> Line
    ensures { Told (open_outcome inHz outHz forEnc) result.refused result.written result.«record» tt }
{
    resampler::silk_resampler_init(inHz, outHz, forEnc).into()
}

#[unsafe(no_mangle)]
pub extern "C" fn simmerpatch_resample(s: Record, out: &mut [i16], input: &[i16]) -> Line
    ensures { Told (resample_outcome s input.now out.old) result.refused result.written result.«record» out.new }
{
    resampler::silk_resampler(s, out, input).into()
}

#[unsafe(no_mangle)]
pub extern "C" fn simmerpatch_park(s: Record, block: &mut [u8]) -> Line
    ensures { Told (park_outcome s block.old) result.refused result.written result.«record» block.new }
{
    resampler::park(s, block).into()
}

#[unsafe(no_mangle)]
pub extern "C" fn simmerpatch_resume(block: &[u8]) -> Line
    ensures { Told (resume_outcome block.now) result.refused result.written result.«record» tt }
{
    resampler::resume(block).into()
}

#[unsafe(no_mangle)]
pub extern "C" fn simmerpatch_down2(s: Two, out: &mut [i16], input: &[i16]) -> Halves
    ensures { Told (down2_outcome s.w input.now out.old) result.refused result.written result.words.w out.new }
{
    stages::silk_resampler_down2(s.w, out, input).into()
}

#[unsafe(no_mangle)]
pub extern "C" fn simmerpatch_split(
    s: Two,
    low: &mut [i16],
    high: &mut [i16],
    input: &[i16],
) -> Halves
    ensures { Told (split_outcome s.w input.now low.old high.old) result.refused result.written result.words.w (low.new, high.new) }
{
    stages::silk_ana_filt_bank_1(s.w, low, high, input).into()
}

#[unsafe(no_mangle)]
pub extern "C" fn simmerpatch_down2_3(s: Six, out: &mut [i16], input: &[i16]) -> Thirds
    ensures { Told (down23_outcome s.w input.now out.old) result.refused result.written result.words.w out.new }
{
    stages::silk_resampler_down2_3(s.w, out, input).into()
}
