// The numbers of the file: read as words or as samples, and compared with what a stage left.
ghost use Rattle.std.specs.Prelude.{◌≤◌, IfOk};

use std::fs::File;
use std::io;
use std::io::Read;

// What a number of the file can stand for, and the number that stands for it.
pub trait Entry: Copy {
    const ZERO: Self;

    fn of(number: i32) -> Self;

    fn number(self) -> i32;
}

impl Entry for i32 {
    const ZERO: i32 = 0;

    fn of(number: i32) -> i32 {
        number
    }

    fn number(self) -> i32 {
        self
    }
}

impl Entry for i16 {
    const ZERO: i16 = 0;

    fn of(number: i32) -> i16 {
        fixed::clip(number)
    }

    fn number(self) -> i32 {
        i32::from(self)
    }
}

// The next four bytes, zeros for those that lie behind the end of the file, and how many there were.
fn four(from: &mut File) -> io::Result<([u8; 4], usize)> {
    let mut b = [0u8; 4];
    let mut n = 0;
    for _ in 0..4 {
        let more = from.read(&mut b[n..])?;
        n += more;
        if more == 0 || n == 4 {
            break;
        }
    }
    Ok((b, n))
}

// The next number, where the file has not ended.
pub fn next(from: &mut File) -> io::Result<Option<i32>> {
    let (b, n) = four(from)?;
    Ok((n == 4).then_some(i32::from_le_bytes(b)))
}

// The same as a word or a sample; zero behind the end.
pub fn take<T: Entry>(from: &mut File) -> io::Result<T> {
    let (b, _) = four(from)?;
    Ok(T::of(i32::from_le_bytes(b)))
}

// How many numbers of a sort a case has; 0 where that can't be.
pub fn count(from: &mut File) -> io::Result<usize>
    ensures { IfOk result (λ n. n ≤ 1024) }
{
    let (b, _) = four(from)?;
    let n = u32::from_le_bytes(b);
    Ok(if n <= 1024 { n as usize } else { 0 })
}

// The next numbers, as many as there are places.
fn fill<T: Entry>(from: &mut File, to: &mut [T]) -> io::Result<()> {
    for x in to {
        *x = take(from)?;
    }
    Ok(())
}

// The next n numbers, and zeros behind them.
pub fn front<T: Entry, const N: usize>(from: &mut File, n: usize) -> io::Result<[T; N]>
    requires { n ≤ N }
{
    let mut to = [T::ZERO; N];
    fill(from, &mut to[..n])?;
    Ok(to)
}

// The next numbers.
pub fn array<T: Entry, const N: usize>(from: &mut File) -> io::Result<[T; N]> {
    front(from, N)
}

// Whether the next numbers are these.
pub fn same<T: Entry>(from: &mut File, got: &[T]) -> io::Result<bool> {
    let mut all = true;
    for x in got {
        all &= take::<i32>(from)? == x.number();
    }
    Ok(all)
}

// Whether the next numbers are this output and behind it these words.
pub fn same_run(from: &mut File, out: &[i16], words: &[i32]) -> io::Result<bool> {
    let outputs = same(from, out)?;
    Ok(outputs & same(from, words)?)
}
