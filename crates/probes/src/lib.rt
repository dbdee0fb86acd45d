// The stages that are no entry points as C functions, to be measured and compared from other languages. A slice is a pointer
// and a length; words go in and out by value, in structs, for C passes no arrays so. What a stage would not take is refused
// here: nothing is written, and the words come back as they were given.
#![tactic(auto)]

ghost use Rattle.std.specs.Prelude.{◌≡◌, true, ◌*◌, ◌%◌, ◌<◌, ◌≤◌};
ghost use Rattle.filters.specs.Reader.{outputs, Steady};

use stages::{DownWords, Filter, IirFirWords, Rates};

// The words of the doubler.
#[repr(C)]
#[derive(Clone, Copy)]
pub struct Six {
    pub w: [i32; 6],
}

// How many samples were written, and the words after them.
#[repr(C)]
#[derive(Clone, Copy)]
pub struct Doubles {
    pub written: usize,
    pub words: Six,
}

#[repr(C)]
#[derive(Clone, Copy)]
pub struct DownPass {
    pub written: usize,
    pub words: DownWords,
}

#[repr(C)]
#[derive(Clone, Copy)]
pub struct UpPass {
    pub written: usize,
    pub words: IirFirWords,
}

#[unsafe(no_mangle)]
pub extern "C" fn probe_up2_HQ(words: Six, out: &mut [i16], input: &[i16]) -> Doubles {
    if out.len() / 2 < input.len() {
        return Doubles { written: 0, words };
    }
    let w = stages::silk_resampler_private_up2_HQ(words.w, out, input);
    Doubles {
        written: 2 * input.len(),
        words: Six { w },
    }
}

// Whether n samples are whole milliseconds, and what they make has room in so many places.
fn fits(r: Rates, n: usize, room: usize) -> bool
    requires { (0 < r.inKhz) × (0 < r.outKhz) }
    ensures { result ≡ true → (n % r.inKhz ≡ 0) × (outputs r n ≤ room) }
{
    n % r.inKhz == 0 && n / r.inKhz <= room / r.outKhz
}

fn down(r: Rates, f: Filter<'_>, words: DownWords, out: &mut [i16], input: &[i16]) -> DownPass
    requires { Steady r.inKhz r × (r.outKhz ≤ 16) × (0 < r.outKhz) }
{
    if !fits(r, input.len(), out.len()) {
        return DownPass { written: 0, words };
    }
    let q = stages::silk_resampler_private_down_FIR(r, f, words, out, input);
    DownPass {
        written: q.written,
        words: q.words,
    }
}

#[unsafe(no_mangle)]
pub extern "C" fn probe_down_16_12(words: DownWords, out: &mut [i16], input: &[i16]) -> DownPass {
    let r = Rates {
        inKhz: 16,
        outKhz: 12,
        increment: 87382,
    };
    down(r, stages::DOWN_3_4, words, out, input)
}

#[unsafe(no_mangle)]
pub extern "C" fn probe_down_12_8(words: DownWords, out: &mut [i16], input: &[i16]) -> DownPass {
    let r = Rates {
        inKhz: 12,
        outKhz: 8,
        increment: 98304,
    };
    down(r, stages::DOWN_2_3, words, out, input)
}

#[unsafe(no_mangle)]
pub extern "C" fn probe_down_16_8(words: DownWords, out: &mut [i16], input: &[i16]) -> DownPass {
    let r = Rates {
        inKhz: 16,
        outKhz: 8,
        increment: 131072,
    };
    down(r, stages::DOWN_1_2, words, out, input)
}

#[unsafe(no_mangle)]
pub extern "C" fn probe_down_48_16(words: DownWords, out: &mut [i16], input: &[i16]) -> DownPass {
    let r = Rates {
        inKhz: 48,
        outKhz: 16,
        increment: 196608,
    };
    down(r, stages::DOWN_1_3, words, out, input)
}

#[unsafe(no_mangle)]
pub extern "C" fn probe_down_48_12(words: DownWords, out: &mut [i16], input: &[i16]) -> DownPass {
    let r = Rates {
        inKhz: 48,
        outKhz: 12,
        increment: 262144,
    };
    down(r, stages::DOWN_1_4, words, out, input)
}

#[unsafe(no_mangle)]
pub extern "C" fn probe_down_48_8(words: DownWords, out: &mut [i16], input: &[i16]) -> DownPass {
    let r = Rates {
        inKhz: 48,
        outKhz: 8,
        increment: 393216,
    };
    down(r, stages::DOWN_1_6, words, out, input)
}

fn up(r: Rates, words: IirFirWords, out: &mut [i16], input: &[i16]) -> UpPass
    requires { Steady (2 * r.inKhz) r × (r.inKhz ≤ 16) × (0 < r.outKhz) }
{
    if !fits(r, input.len(), out.len()) {
        return UpPass { written: 0, words };
    }
    let q = stages::silk_resampler_private_IIR_FIR(r, words, out, input);
    UpPass {
        written: q.written,
        words: q.words,
    }
}

#[unsafe(no_mangle)]
pub extern "C" fn probe_up_8_12(words: IirFirWords, out: &mut [i16], input: &[i16]) -> UpPass {
    let r = Rates {
        inKhz: 8,
        outKhz: 12,
        increment: 87382,
    };
    up(r, words, out, input)
}

#[unsafe(no_mangle)]
pub extern "C" fn probe_up_8_24(words: IirFirWords, out: &mut [i16], input: &[i16]) -> UpPass {
    let r = Rates {
        inKhz: 8,
        outKhz: 24,
        increment: 43691,
    };
    up(r, words, out, input)
}

#[unsafe(no_mangle)]
pub extern "C" fn probe_up_8_48(words: IirFirWords, out: &mut [i16], input: &[i16]) -> UpPass {
    let r = Rates {
        inKhz: 8,
        outKhz: 48,
        increment: 21846,
    };
    up(r, words, out, input)
}

#[unsafe(no_mangle)]
pub extern "C" fn probe_up_12_16(words: IirFirWords, out: &mut [i16], input: &[i16]) -> UpPass {
    let r = Rates {
        inKhz: 12,
        outKhz: 16,
        increment: 98304,
    };
    up(r, words, out, input)
}

#[unsafe(no_mangle)]
pub extern "C" fn probe_up_12_48(words: IirFirWords, out: &mut [i16], input: &[i16]) -> UpPass {
    let r = Rates {
        inKhz: 12,
        outKhz: 48,
        increment: 32768,
    };
    up(r, words, out, input)
}

#[unsafe(no_mangle)]
pub extern "C" fn probe_up_16_24(words: IirFirWords, out: &mut [i16], input: &[i16]) -> UpPass {
    let r = Rates {
        inKhz: 16,
        outKhz: 24,
        increment: 87382,
    };
    up(r, words, out, input)
}

#[unsafe(no_mangle)]
pub extern "C" fn probe_up_16_48(words: IirFirWords, out: &mut [i16], input: &[i16]) -> UpPass {
    let r = Rates {
        inKhz: 16,
        outKhz: 48,
        increment: 43691,
    };
    up(r, words, out, input)
}
