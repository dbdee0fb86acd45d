// Cases of one operation on words.
use crate::file;
use crate::kinds::Operation;
use std::fs::File;
use std::io;

// A product; 0 where c is no coefficient.
fn product(c: i32, y: i32) -> i32 {
    if c.unsigned_abs() < 65536 {
        fixed::mul_q16(c, y)
    } else {
        0
    }
}

// x narrowed by one of the four widths that the stages use; 0 for another.
fn narrowing(x: i32, n: i32) -> i16 {
    match u32::try_from(n) {
        Ok(n @ (6 | 10 | 11 | 15)) => fixed::narrow(x, n),
        _ => 0,
    }
}

// Whether an operation on the next words gives the one that follows them.
pub fn word_case(from: &mut File, operation: Operation) -> io::Result<bool> {
    let a = file::take(from)?;
    let got = match operation {
        Operation::Add => fixed::add(a, file::take(from)?),
        Operation::Sub => fixed::sub(a, file::take(from)?),
        Operation::Shl2 => fixed::shl2(a),
        Operation::Product => product(a, file::take(from)?),
        Operation::Narrow => i32::from(narrowing(a, file::take(from)?)),
    };
    Ok(file::take::<i32>(from)? == got)
}
