#![tactic(auto)]

use std::io;

fn main(rt: HostRuntime) -> io::Result<()> {
    line::run(&rt)
}
