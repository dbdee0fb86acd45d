// The stages of the SILK resampler, with the two decimators and the two-band split: samples and carried words in, samples
// and carried words out, no pairs and no records. Each file has the name of the Rust's; `answer`, `parts`, `reading` and `words` are ours; what
// is made of a sample or read for an output is the crate `filters`, whose tables and rates are handed on to callers.
#![tactic(auto)]

mod ana_filt_bank_1;
mod answer;
mod ar2;
mod down2;
mod down2_3;
mod down_fir;
mod iir_fir;
mod parts;
mod reading;
mod up2_hq;
mod words;

pub use ana_filt_bank_1::silk_ana_filt_bank_1;
pub use answer::{Answered, Refusal};
pub use ar2::silk_resampler_private_AR2;
pub use down_fir::{DownWords, silk_resampler_private_down_FIR};
pub use down2::silk_resampler_down2;
pub use down2_3::silk_resampler_down2_3;
pub use filters::down_fir::{DOWN_1_2, DOWN_1_3, DOWN_1_4, DOWN_1_6, DOWN_2_3, DOWN_3_4, Filter};
pub use filters::rates::Rates;
pub use filters::rom;
pub use iir_fir::{IirFirWords, silk_resampler_private_IIR_FIR};
pub use parts::Pass;
pub use up2_hq::silk_resampler_private_up2_HQ;
pub use words::{carried, copy_samples};
