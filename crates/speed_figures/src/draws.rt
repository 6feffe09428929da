//! Numbers that look drawn, the same ones in each run.

ghost use Rattle.std.specs.Prelude.{◌<◌};

/// A linear congruence modulo 2^64, of which the upper half is given.
#[derive(Drop)]
pub struct Draws {
    number: u64,
}

impl Draws {
    /// The draws that begin with a seed.
    pub fn from_seed(seed: u64) -> Draws {
        Draws { number: seed }
    }

    /// The next number.
    pub fn next(&mut self) -> u32 {
        self.number = self
            .number
            .wrapping_mul(6_364_136_223_846_793_005)
            .wrapping_add(1_442_695_040_888_963_407);
        (self.number >> 32) as u32
    }

    /// The next number below a bound, which isn't 0.
    pub fn below(&mut self, bound: u32) -> u32
        requires positive { 0 < bound }
        ensures below { result < bound }
    {
        self.next() % bound
    }
}
