// Opening a line from the words that ask for it. Meaning: specs/Opening.antt.
ghost use Rattle.std.specs.Prelude.{◌≡◌, [], ◌∷◌, ◌≤◌, length, IfSome, unwrap_or};
ghost use Rattle.resampler.specs.Pairs.{pair};
ghost use Rattle.line.specs.Opening as Opening;

use stages::Refusal;

// Puts the fresh block of the pair that the words ask for into `block`, or leaves it where they ask for none.
pub fn open(direction: &[u8], inKhz: &[u8], outKhz: &[u8], block: &mut [u8]) -> Result<(), Refusal>
    requires { length block.old ≡ 512 }
    ensures { let p = Opening.asked_for direction.now inKhz.now outKhz.now in
        Opening.OpensAs p block.old block.new result }
{
    let forEnc = direction_in(direction).ok_or(Refusal::PairNotListed)?;
    let inKhz = khz_in(inKhz).ok_or(Refusal::PairNotListed)?;
    let outKhz = khz_in(outKhz).ok_or(Refusal::PairNotListed)?;
    fresh_block(forEnc, inKhz, outKhz, block)
}

// The same from their numbers.
fn fresh_block(forEnc: u8, inKhz: u8, outKhz: u8, block: &mut [u8]) -> Result<(), Refusal>
    requires { (length block.old ≡ 512) × (forEnc ≤ 1) }
    ensures { Opening.OpensAs (pair forEnc inKhz outKhz) block.old block.new result }
{
    let inHz = 1000 * i32::from(inKhz);
    let outHz = 1000 * i32::from(outKhz);
    let opened = resampler::silk_resampler_init(inHz, outHz, i32::from(forEnc));
    opened.answer?;
    resampler::park(opened.state, block);
    Ok(())
}

// 1 for `encoder`, 0 for `decoder`.
#[tactic(auto, using(crate::proofs::Laws::Opening::same_is), unfolding(crate::specs::Opening::direction_in))]
fn direction_in(word: &[u8]) -> Option<u8>
    ensures { (unwrap_or result 2 ≡ Opening.direction_in word.now) × IfSome result (λ d. d ≤ 1) }
{
    if word == b"encoder".as_slice() {
        Some(1)
    } else if word == b"decoder".as_slice() {
        Some(0)
    } else {
        None
    }
}

// The number that one or two digits are.
#[tactic(auto, unfolding(crate::specs::Opening::khz_in))]
fn khz_in(word: &[u8]) -> Option<u8>
    ensures { unwrap_or result 0 ≡ Opening.khz_in word.now }
{
    match word {
        [b] => number(b'0', *b),
        [a, b] => number(*a, *b),
        _ => None,
    }
}

// The number of two digits.
#[tactic(auto, unfolding(crate::specs::Opening::khz_in))]
fn number(a: u8, b: u8) -> Option<u8>
    ensures { unwrap_or result 0 ≡ Opening.khz_in (a ∷ b ∷ []) }
{
    if a.is_ascii_digit() && b.is_ascii_digit() {
        Some(10 * (a - b'0') + (b - b'0'))
    } else {
        None
    }
}
