// Writing the messages to standard error.
use crate::message;
use stages::Refusal;
use std::io;

// Writes `refused N`.
pub fn refuse(rt: &HostRuntime, refusal: Refusal) -> io::Result<()> {
    let mut text = [0; message::ROOM];
    let n = message::refused(&mut text, refusal.number());
    rt.stderr().write_all(&text[..n])
}

// Writes `left over N bytes`.
pub fn leave(rt: &HostRuntime, bytes: usize) -> io::Result<()> {
    let mut text = [0; message::ROOM];
    let n = message::left_over(&mut text, bytes);
    rt.stderr().write_all(&text[..n])
}
