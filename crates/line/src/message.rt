// What the programs write to standard error. Meaning: specs/Message.antt.
ghost use Rattle.std.specs.Prelude.{◌≡◌, ◌++◌, ◌+◌, ◌≤◌, length, take};
ghost use Rattle.io.specs.Counts.{IsPrefixLen};
ghost use Rattle.line.specs.Message as Message;

// Room for either message about any number.
pub const ROOM: usize = 48;

// Puts `refused N` to the front, and answers how many bytes it has.
#[tactic(auto, unfolding(crate::specs::Message::refused))]
pub fn refused(to: &mut [u8; 48], n: u8) -> usize
    ensures prefix_len { IsPrefixLen result to.new }
    ensures to_after { take result to.new ≡ Message.refused n }
{
    put_around(to, b"refused ", n as u64, b"\n")
}

// Puts `left over N bytes` to the front, and answers how many bytes it has.
#[tactic(auto, unfolding(crate::specs::Message::left_over))]
pub fn left_over(to: &mut [u8; 48], n: usize) -> usize
    ensures prefix_len { IsPrefixLen result to.new }
    ensures to_after { take result to.new ≡ Message.left_over n }
{
    put_around(to, b"left over ", n as u64, b" bytes\n")
}

// Puts a number between two parts, and answers how many bytes they are.
fn put_around(to: &mut [u8; 48], front: &[u8], n: u64, back: &[u8]) -> usize
    requires { length front.now + 20 + length back.now ≤ 48 }
    ensures prefix_len { IsPrefixLen result to.new }
    ensures to_after { take result to.new ≡ front.now ++ Message.decimal n ++ back.now }
{
    let mut digits = [0; 20];
    let k = io::decimal(n, &mut digits);
    let a = put(to, 0, front);
    let b = put(to, a, &digits[..k]);
    put(to, b, back)
}

// Puts a part behind the first `at` bytes, and answers how many there are then.
fn put(to: &mut [u8; 48], at: usize, part: &[u8]) -> usize
    requires { at + length part.now ≤ 48 }
    ensures { (result ≡ at + length part.now) × (take result to.new ≡ take at to.old ++ part.now) }
{
    let end = at + part.len();
    to[at..end].copy_from_slice(part);
    end
}
