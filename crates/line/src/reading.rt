// Reading standard input, by as many reads as it takes.
ghost use Rattle.std.specs.Prelude.{◌≤◌, IfOk, length};

use std::io;
use std::io::Read;

// Fills `to`, or as much of it as there is, and answers how many bytes that is.
pub fn read_full(rt: &HostRuntime, to: &mut [u8]) -> io::Result<usize>
    ensures { IfOk result (λ n. n ≤ length to.new) }
{
    let most = to.len();
    let mut rest = to;
    io::copy(&mut rt.stdin().take(most as u64), &mut rest)?;
    Ok(most.saturating_sub(rest.len()))
}
