// The programs: their work over slices, with what it comes to in specs/, and the reading and writing around it.
#![tactic(auto)]

mod arguments;
pub mod calls;
pub mod ends;
pub mod message;
pub mod opening;
mod reading;
mod said;
mod stream;

pub use arguments::open_line;
pub use stream::run;
