// Runs blocks that are resumed and blocks that are refused, and the messages, and prints what the programs would write of them.
#![tactic(auto)]

use line::{ends, message, opening};
use resampler::block;
use std::io;

// The fresh block of the encoder from 8 to 16 kHz, with one byte set: how many of its bytes are read, the byte's place and its
// value, and whether the check is made anew.
#[derive(Clone, Copy)]
struct Case(usize, usize, u8, bool);

// The rows come in the order in which they are tested, also where a later one applies as well; live bytes are resumed.
const BLOCKS: [Case; 21] = [
    Case(512, 3, 1, false),
    Case(0, 3, 1, false),
    Case(511, 3, 2, false),
    Case(512, 508, 70, false),
    Case(512, 511, 1, false),
    Case(512, 1, 12, false),
    Case(512, 3, 2, false),
    Case(512, 3, 0, true),
    Case(512, 3, 2, true),
    Case(512, 0, 2, true),
    Case(512, 1, 9, true),
    Case(512, 2, 48, true),
    Case(512, 1, 0, true),
    Case(512, 28, 1, true),
    Case(512, 44, 1, true),
    Case(512, 195, 1, true),
    Case(512, 202, 1, true),
    Case(512, 292, 1, true),
    Case(512, 507, 255, true),
    Case(512, 27, 1, true),
    Case(512, 201, 1, true),
];

const LEFT: [usize; 6] = [1, 9, 10, 95, 100, usize::MAX];

fn refused(rt: &HostRuntime, row: u8) -> io::Result<()> {
    let mut text = [0; message::ROOM];
    let n = message::refused(&mut text, row);
    rt.write_all(&text[..n])
}

fn left_over(rt: &HostRuntime, bytes: usize) -> io::Result<()> {
    let mut text = [0; message::ROOM];
    let n = message::left_over(&mut text, bytes);
    rt.write_all(&text[..n])
}

// Makes the check anew.
fn seal(b: &mut [u8; 512]) {
    let sum = block::check(b);
    little_endian::put(b, 508, 4, sum);
}

fn run(rt: &HostRuntime, case: Case) -> io::Result<()> {
    let Case(read, at, value, anew) = case;
    let check = if anew { ", check made anew" } else { "" };
    print!(rt; "{read} bytes, byte {at} is {value}{check}: ")?;
    let mut b = [0; 512];
    if let Err(refusal) = opening::open(b"encoder", b"8", b"16", &mut b) {
        return refused(rt, refusal.number());
    }
    if let Some(byte) = b.get_mut(at) {
        *byte = value;
    }
    if anew {
        seal(&mut b);
    }
    match ends::begin(&b[..read.min(512)]) {
        Ok(_) => rt.println("resumed"),
        Err(refusal) => refused(rt, refusal.number()),
    }
}

fn main(rt: HostRuntime) -> io::Result<()> {
    for case in BLOCKS {
        run(&rt, case)?;
    }
    refused(&rt, 1)?;
    refused(&rt, 255)?;
    for bytes in LEFT {
        left_over(&rt, bytes)?;
    }
    Ok(())
}
