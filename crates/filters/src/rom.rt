// The coefficients, under the names of silk/resampler/rom.rs and silk/ana_filt_bank_1.rs. What they are is said, row by row,
// in specs/Rom.antt; `tied` at the end proves by computation that each holds just that.
// A coefficient that the Rust keeps less 65536, to fit an i16, stands whole. Taps stand as wide as the products that they go into
// are made, so that no product widens one.
ghost use Rattle.std.specs.Prelude.{◌≡◌};
ghost use Rattle.filters.specs.Rom as Rom;

pub const RESAMPLER_DOWN_ORDER_FIR0: usize = 18;

pub const RESAMPLER_DOWN_ORDER_FIR1: usize = 24;

pub const RESAMPLER_DOWN_ORDER_FIR2: usize = 36;

pub const RESAMPLER_ORDER_FIR_12: usize = 8;

// The 1/2 decimator: odd samples, even samples.
pub const silk_resampler_down2_0: i32 = 9872;

pub const silk_resampler_down2_1: i32 = 39809;

// The split: odd samples, even samples.
pub const A_fb1_20: i32 = 10788;

pub const A_fb1_21: i32 = 41246;

// The doubler: the even output's three sections, the odd output's.
pub const silk_resampler_up2_hq_0: [i32; 3] = [1746, 14986, 39083];

pub const silk_resampler_up2_hq_1: [i32; 3] = [6854, 25769, 55542];

// The down filters: A0 and A1, then the rows of taps.
pub const silk_Resampler_3_4_COEFS: [i64; 29] = [
    -20694, -13867, -49, 64, 17, -157, 353, -496, 163, 11047, 22205, -39, 6, 91, -170, 186, 23,
    -896, 6336, 19928, -19, -36, 102, -89, -24, 328, -951, 2568, 15909,
];

pub const silk_Resampler_2_3_COEFS: [i64; 20] = [
    -14457, -14019, 64, 128, -122, 36, 310, -768, 584, 9267, 17733, 12, 128, 18, -142, 288, -117,
    -865, 4123, 14459,
];

pub const silk_Resampler_1_2_COEFS: [i64; 14] = [
    616, -14323, -10, 39, 58, -46, -84, 120, 184, -315, -541, 1284, 5380, 9024,
];

pub const silk_Resampler_1_3_COEFS: [i64; 20] = [
    16102, -15162, -13, 0, 20, 26, 5, -31, -43, -4, 65, 90, 7, -157, -248, -44, 593, 1583, 2612,
    3271,
];

pub const silk_Resampler_1_4_COEFS: [i64; 20] = [
    22500, -15099, 3, -14, -20, -15, 2, 25, 37, 25, -16, -71, -107, -79, 50, 292, 623, 982, 1288,
    1464,
];

pub const silk_Resampler_1_6_COEFS: [i64; 20] = [
    27540, -15257, 17, 12, 8, 1, -10, -22, -30, -32, -22, 3, 44, 100, 168, 243, 317, 381, 429, 455,
];

// The 2/3 decimator: A0 and A1, then its four taps.
pub const silk_Resampler_2_3_COEFS_LQ: [i64; 6] = [-2797, -6507, 4697, 10739, 1567, 8276];

// The interpolator: twelve rows of four taps.
pub const silk_resampler_frac_FIR_12: [[i32; 4]; 12] = [
    [189, -600, 617, 30567],
    [117, -159, -1070, 29704],
    [52, 221, -2392, 28276],
    [-4, 529, -3350, 26341],
    [-48, 758, -3956, 23973],
    [-80, 905, -4235, 21254],
    [-99, 972, -4222, 18278],
    [-107, 967, -3957, 15143],
    [-103, 896, -3487, 11950],
    [-91, 773, -2865, 8798],
    [-71, 611, -2143, 5784],
    [-46, 425, -1375, 2996],
];

// The next three ask their caller to show that what they are given are the tables of specs/Rom.antt, and do nothing.
fn sections_are(down0: i32, down1: i32, fb0: i32, fb1: i32, even: [i32; 3], odd: [i32; 3])
    requires decimator { (down0 ≡ Rom.silk_resampler_down2_0) × (down1 ≡ Rom.silk_resampler_down2_1) }
    requires split { (fb0 ≡ Rom.A_fb1_20) × (fb1 ≡ Rom.A_fb1_21) }
    requires doubler { (even ≡ Rom.silk_resampler_up2_hq_0) × (odd ≡ Rom.silk_resampler_up2_hq_1) }
{}

fn filters_are(
    c34: [i64; 29],
    c23: [i64; 20],
    c12: [i64; 14],
    c13: [i64; 20],
    c14: [i64; 20],
    c16: [i64; 20],
    lq: [i64; 6],
)
    requires down_3_4_and_2_3 { (c34 ≡ Rom.silk_Resampler_3_4_COEFS) × (c23 ≡ Rom.silk_Resampler_2_3_COEFS) }
    requires down_1_2_and_1_3 { (c12 ≡ Rom.silk_Resampler_1_2_COEFS) × (c13 ≡ Rom.silk_Resampler_1_3_COEFS) }
    requires down_1_4_and_1_6 { (c14 ≡ Rom.silk_Resampler_1_4_COEFS) × (c16 ≡ Rom.silk_Resampler_1_6_COEFS) }
    requires down2_3 { lq ≡ Rom.silk_Resampler_2_3_COEFS_LQ }
{}

fn interpolation_is(frac: [[i32; 4]; 12])
    requires { frac ≡ Rom.silk_resampler_frac_FIR_12 }
{}

// That this is proved is the tie: every table is handed to a function that asks for its definition.
pub fn tied() {
    sections_are(
        silk_resampler_down2_0,
        silk_resampler_down2_1,
        A_fb1_20,
        A_fb1_21,
        silk_resampler_up2_hq_0,
        silk_resampler_up2_hq_1,
    );
    filters_are(
        silk_Resampler_3_4_COEFS,
        silk_Resampler_2_3_COEFS,
        silk_Resampler_1_2_COEFS,
        silk_Resampler_1_3_COEFS,
        silk_Resampler_1_4_COEFS,
        silk_Resampler_1_6_COEFS,
        silk_Resampler_2_3_COEFS_LQ,
    );
    interpolation_is(silk_resampler_frac_FIR_12);
}
