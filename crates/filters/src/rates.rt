// What a stage with a reader is told of its pair.

// The two rates, and how far apart two outputs are read, in 65536ths of a sample.
#[derive(Clone, Copy)]
pub struct Rates {
    pub inKhz: usize,
    pub outKhz: usize,
    pub increment: usize,
}
