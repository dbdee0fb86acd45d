// The six down filters, by the ratio of the rates. Meaning: specs/Pairs.antt.
ghost use Rattle.std.specs.Prelude.{◌≡◌, ◌≤◌};
ghost use Rattle.filters.specs.Stage.DownFir.{filter_of};
ghost use Rattle.resampler.specs.Pairs as Pairs;
ghost use Rattle.resampler.specs.Pairs.{pair};

use stages::{DOWN_1_2, DOWN_1_3, DOWN_1_4, DOWN_1_6, DOWN_2_3, DOWN_3_4, Filter};

// The filter of out to in; the direction does not matter.
pub fn at(inKhz: usize, outKhz: usize) -> Filter<'static>
    requires { (inKhz ≤ 48) × (outKhz ≤ 48) }
    ensures { filter_of result.order result.coefs.now ≡ Pairs.filter (pair 0 inKhz outKhz) }
{
    if outKhz * 4 == inKhz * 3 {
        return DOWN_3_4;
    }
    if outKhz * 3 == inKhz * 2 {
        return DOWN_2_3;
    }
    if outKhz * 2 == inKhz {
        return DOWN_1_2;
    }
    if outKhz * 3 == inKhz {
        return DOWN_1_3;
    }
    if outKhz * 4 == inKhz {
        return DOWN_1_4;
    }
    DOWN_1_6
}
