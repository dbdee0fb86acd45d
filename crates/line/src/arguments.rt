// The program `open_line`: its arguments, and what it writes.
ghost use Rattle.std.specs.Prelude.{◌≤◌, length};

use crate::{opening, said};
use stages::Refusal;
use std::env::{Env, FillError};
use std::io;

// Writes the fresh block that the arguments ask for to standard output, or what they are refused with to standard error.
pub fn open_line(rt: &HostRuntime) -> io::Result<()> {
    let mut block = [0; 512];
    match asked(rt, &mut block) {
        Ok(()) => rt.write_all(&block),
        Err(refusal) => said::refuse(rt, refusal),
    }
}

// Puts that block, or answers what they are refused with. A word of more than eight letters counts as an empty one.
fn asked(rt: &HostRuntime, block: &mut [u8; 512]) -> Result<(), Refusal> {
    // Argument 0 is the program's name.
    if !given(rt, 3) || given(rt, 4) {
        return Err(Refusal::PairNotListed);
    }
    let (mut direction, mut inKhz, mut outKhz) = ([0; 8], [0; 8], [0; 8]);
    opening::open(
        word(rt, 1, &mut direction),
        word(rt, 2, &mut inKhz),
        word(rt, 3, &mut outKhz),
        block,
    )
}

fn given(rt: &HostRuntime, i: usize) -> bool {
    !matches!(rt.arg(i, &mut [0; 8]), Err(FillError::NotPresent))
}

// Puts an argument into `to` and answers its letters; none where there is no room for it.
fn word<'a>(rt: &HostRuntime, i: usize, to: &'a mut [u8; 8]) -> &'a [u8]
    ensures { length result.now ≤ length to.old }
{
    let n = rt.arg(i, to).unwrap_or(0);
    &to[..n]
}
