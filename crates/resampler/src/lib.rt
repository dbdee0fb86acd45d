// The resampler: pairs of rates, records and parked blocks, over the stages.
// From silk/resampler/mod.rs.
#![tactic(auto)]

pub mod block;
mod entries;
mod filter;
mod init;
mod known;
pub mod pairs;
mod parking;
mod passes;
mod path;
mod resample;
mod resuming;

pub use init::silk_resampler_init;
pub use parking::park;
pub use resample::silk_resampler;
pub use resuming::resume;

// A line's whole state, by value: its pair, and every word and sample that any path can carry.
// Which of them a pair uses is said in specs/Record.antt; the others are zero.
#[repr(C)]
#[derive(Clone, Copy)]
pub struct Record {
    pub direction: u8,
    pub inKhz: u8,
    pub outKhz: u8,
    pub doubler: [i32; 6],
    pub samples: [i16; 8],
    pub ar2: [i32; 2],
    pub fir: [i32; 36],
    pub delay: [i16; 48],
}
