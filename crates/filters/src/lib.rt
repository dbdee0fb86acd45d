// What the filters of the SILK resampler make of a sample, of two or three, or of as many as an output is read from: tables,
// allpass sections, taps, and a step of each stage. No loop over lent samples. Each file has the name of the Rust's;
// `allpass`, `rates`, `reader`, `step` and `taps` are ours; the word arithmetic and AR2's step are the crate `fixed`.
#![tactic(auto)]

pub mod allpass;
pub mod ana_filt_bank_1;
pub mod down2;
pub mod down2_3;
pub mod down_fir;
pub mod iir_fir;
pub mod rates;
pub mod reader;
pub mod rom;
pub mod step;
mod taps;
pub mod up2_hq;
