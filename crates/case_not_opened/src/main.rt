#![tactic(auto)]

use std::io;

fn main(rt: HostRuntime) -> io::Result<()> {
    line::open_line(&rt)
}
