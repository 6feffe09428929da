//! Random circuits, the same ones in each run.

ghost use Rattle.std.specs.Prelude.{◌≡◌, ◌≢◌, ◌<◌, ◌≤◌, IfOk, length};
ghost use Rattle.circuit_list.specs.Gates.{IsFine, most_wires};

use circuit_list::{Circuit, Gate};
use std::alloc::{AllocError, Global};

/// A kind of random gate, on random wires.
#[derive(Clone, Copy, Debug, PartialEq, Eq)]
pub enum Kind {
    H,
    X,
    /// A phase with a random `k`.
    P,
    /// The phase with `k` 2.
    S,
    /// The phase with `k` 6.
    InverseS,
    Cx,
}

/// Numbers that look random, the same at each run.
#[derive(Drop)]
pub struct Random {
    state: u64,
}

impl Random {
    /// The numbers from a start.
    pub fn from_start(start: u64) -> Random {
        Random { state: start }
    }

    /// The next number: the upper 31 bits of a linear congruence modulo 2^64.
    fn draw(&mut self) -> u32 {
        self.state = self
            .state
            .wrapping_mul(6_364_136_223_846_793_005)
            .wrapping_add(1_442_695_040_888_963_407);
        (self.state >> 33) as u32
    }

    /// A number below a limit.
    fn below(&mut self, limit: u32) -> u32
        requires { 0 < limit }
        ensures { result < limit }
    {
        self.draw() % limit
    }

    /// One of the kinds, each place of the table as often as any other.
    fn kind(&mut self, kinds: &[Kind]) -> Kind
        requires { 0 < length kinds.now }
    {
        kinds[self.draw() as usize % kinds.len()]
    }

    /// A gate of one of the kinds.
    pub fn gate(&mut self, wires: u32, kinds: &[Kind]) -> Gate
        requires two { 1 < wires }
        requires limit { wires ≤ most_wires }
        requires some { 0 < length kinds.now }
        ensures fine { IsFine wires result }
    {
        let q = self.below(wires);
        match self.kind(kinds) {
            Kind::H => Gate::H { q },
            Kind::X => Gate::X { q },
            Kind::P => Gate::P {
                k: self.below(7) as u8 + 1,
                q,
            },
            Kind::S => Gate::P { k: 2, q },
            Kind::InverseS => Gate::P { k: 6, q },
            Kind::Cx => Gate::Cx {
                c: q,
                t: further(wires, q, self.below(wires - 1) + 1),
            },
        }
    }

    /// A circuit of so many such gates.
    pub fn circuit(
        &mut self,
        alloc: Global,
        wires: u32,
        kinds: &[Kind],
        gates: u32,
    ) -> Result<Circuit, AllocError>
        requires two { 1 < wires }
        requires limit { wires ≤ most_wires }
        requires some { 0 < length kinds.now }
        ensures wires { IfOk result (λ c. c.wires ≡ wires) }
        ensures count { IfOk result (λ c. length c.gates ≡ gates) }
    {
        let mut body = Circuit::empty(alloc, wires)?;
        'gates: for _i in 0..gates {
            body.push(self.gate(wires, kinds))?;
        }
        Ok(body)
    }
}

/// The wire so many steps behind another, the first wire behind the last.
fn further(wires: u32, wire: u32, steps: u32) -> u32
    requires limit { wires ≤ most_wires }
    requires there { wire < wires }
    requires some { 0 < steps }
    requires steps_limit { steps < wires }
    ensures there { result < wires }
    ensures other { wire ≢ result }
{
    if wire + steps < wires {
        wire + steps
    } else {
        wire + steps - wires
    }
}
