//! Numbers that look drawn, the same ones from the same start.

ghost use Rattle.std.specs.Prelude.{◌≡◌};
ghost use Rattle.bench_program.specs.Draws.{draw, next};

/// A linear congruence modulo 2^64, of which the upper 31 bits are given.
#[derive(Drop)]
pub struct Draws {
    state: u64,
}

impl Draws {
    /// The draws from a start.
    pub fn from_start(start: u32) -> Draws
        ensures value { result.state ≡ start }
    {
        Draws {
            state: start as u64,
        }
    }

    /// The next number.
    pub fn draw(&mut self) -> u32
        ensures state { self.new.state ≡ next self.old.state }
        ensures number { result ≡ draw self.old.state }
    {
        let state = self
            .state
            .wrapping_mul(6_364_136_223_846_793_005)
            .wrapping_add(1_442_695_040_888_963_407);
        self.state = state;
        (state >> 33) as u32
    }
}
