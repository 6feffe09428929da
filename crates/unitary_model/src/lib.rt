//! Definitions and laws of the unitary of a list of operations, over exact Clifford+T: amplitudes, counts, odd path parities,
//! placements, and when one list realises another.
//!
//! In goes a list of operations [`Op`] in circuit order: each is a `U`, whose three angles are
//! counted in eighths of a turn, or a `Cx`. What comes out are definitions and laws, which the
//! contracts of every later crate cite: the amplitudes of a list as exact values of the ring
//! Z[w], w being the eighth root of unity; its counts of T gates and CNOTs; its odd path
//! parities; placements of wires; and when one list realises another on more wires.
//!
//! The crate takes no input that could be bad: a wire past the end of the bits reads 0 and
//! changes nothing, and only `turn_sum` asks anything of its caller.
#![tactic(auto)]

pub mod laws;

ghost use Rattle.std.specs.Prelude.{◌≡◌, ◌+◌, ◌%◌, ◌<◌};

/// An operation of a circuit.
#[derive(Clone, Copy, Debug, PartialEq, Eq)]
pub enum Op {
    /// `U(theta, phi, lambda)` of OpenQASM 2.0 on wire `q`, with theta = a pi/4, phi = b pi/4,
    /// lambda = c pi/4, each of `a`, `b`, `c` below 8, and the global phase at which the first entry
    /// of the matrix is (1 + w^a) / 2.
    U { a: u8, b: u8, c: u8, q: u32 },
    /// The controlled NOT with control `c` and target `t`.
    Cx { c: u32, t: u32 },
}

/// The sum of two turns, in eighths of a circle: what two powers of w make together.
pub fn turn_sum(a: u8, b: u8) -> u8
    requires a_below { a < 8 }
    requires b_below { b < 8 }
    ensures sum { result ≡ (a + b) % 8 }
{
    (a + b) % 8
}
