// What makes the samples of a pair of rates. Meaning: specs/Pairs.antt.
ghost use Rattle.std.specs.Prelude.{◌≤◌};
ghost use Rattle.resampler.specs.Kinds.{Is};
ghost use Rattle.resampler.specs.Pairs.{pair};

// The paths, the filter of the last aside.
#[derive(Clone, Copy)]
pub enum Kind {
    Copy,
    Doubler,
    Interpolator,
    Down,
}

// By the ratio of the rates; the direction does not matter.
pub fn at(inKhz: usize, outKhz: usize) -> Kind
    requires { inKhz ≤ 48 }
    ensures { Is result (pair 0 inKhz outKhz) }
{
    if outKhz == inKhz {
        Kind::Copy
    } else if outKhz == 2 * inKhz {
        Kind::Doubler
    } else if inKhz < outKhz {
        Kind::Interpolator
    } else {
        Kind::Down
    }
}
