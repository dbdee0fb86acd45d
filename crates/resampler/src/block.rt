// The check over a parked block. Meaning: specs/Block.antt.
ghost use Rattle.std.specs.Prelude.{◌≤◌, ◌≡◌, length};
ghost use Rattle.resampler.specs.Block as Block;

// Each byte times its place counted from 1, added up over the bytes 0 to 507.
pub fn check(block: &[u8]) -> u32
    requires { 508 ≤ length block.now }
    ensures { result ≡ Block.check block.now }
{
    let mut sum: usize = 0;
    for (i, byte) in block[..508].iter().enumerate() {
        sum += (i + 1) * usize::from(*byte);
    }
    sum as u32
}
