// What a call answers: the refusals of the table, what an entry point returns, and the refusals that two of them share.
// Meaning: specs/Outcome.antt, specs/Entry.antt.
ghost use Rattle.std.specs.Prelude.{◌≡◌, Ok, Err};
ghost use Rattle.stages.specs.Outcome.{row, row_of};
ghost use Rattle.stages.specs.Entry.{half_row};

// The rows of the table of numbered answers, 0 aside, which is done.
#[derive(Clone, Copy, Debug, PartialEq, Eq)]
pub enum Refusal {
    PairNotListed = 1,
    NoSupportedPair = 2,
    NotWholeMilliseconds = 3,
    TooLong = 4,
    OutputTooShort = 5,
    NotInGroups = 6,
    NotHalf = 7,
    NotABlock = 8,
    CheckDiffers = 9,
    LayoutUnknown = 10,
    BlockPairUnsupported = 11,
    DeadNotZero = 12,
}

impl Refusal {
    pub fn number(self) -> u8
        ensures { result ≡ row_of self }
    {
        self as u8
    }
}

// The samples written, or the refusal, and the state after the call: words or a record, as they were given where it is refused.
#[derive(Clone, Copy)]
pub struct Answered<S> {
    pub answer: Result<usize, Refusal>,
    pub state: S,
}

impl<S> Answered<S> {
    pub fn done(written: usize, state: S) -> Self
        ensures { (result.answer ≡ Ok written) × (result.state ≡ state) }
    {
        Answered {
            answer: Ok(written),
            state,
        }
    }

    pub fn refused(refusal: Refusal, state: S) -> Self
        ensures { (result.answer ≡ Err refusal) × (result.state ≡ state) }
    {
        Answered {
            answer: Err(refusal),
            state,
        }
    }
}

// The most samples that the decimators and the split take in a call.
pub const MOST_SAMPLES: usize = 48000;

// What the 1/2 decimator and the split refuse n samples for, where `half` says whether each output has just half as many places.
pub fn half_refusal(n: usize, half: bool) -> Option<Refusal>
    ensures { row result ≡ half_row n half }
{
    if n % 2 != 0 {
        return Some(Refusal::NotInGroups);
    }
    if MOST_SAMPLES < n {
        return Some(Refusal::TooLong);
    }
    if half { None } else { Some(Refusal::NotHalf) }
}
