//! The gate tables as data: the gates of the library's listing, and those that today's producers write besides.

use TableAngle::{
    Half, HalfPi, MinusHalf, MinusHalfPi, MinusQuarterPi, Param, Pi, QuarterPi, Zero,
};

/// An angle in a table's line.
#[derive(Clone, Copy, Debug, PartialEq, Eq)]
pub enum TableAngle {
    Zero,
    Pi,
    HalfPi,
    MinusHalfPi,
    QuarterPi,
    MinusQuarterPi,
    /// The parameter of this index.
    Param(usize),
    Half(usize),
    MinusHalf(usize),
}

/// A line of a body: the gate that it is a line of and the gate that it applies, by their numbers, the angles, and the
/// qubits by their indices among the gate's.
pub type Line = (usize, usize, &'static [TableAngle], &'static [usize]);

const GATE_U: usize = 0;

const GATE_CX: usize = 1;

const U3: usize = 2;

const U2: usize = 3;

const U1: usize = 4;

const CNOT: usize = 5;

const ID: usize = 6;

const X: usize = 7;

const Y: usize = 8;

const Z: usize = 9;

const H: usize = 10;

const S: usize = 11;

const SDG: usize = 12;

const T: usize = 13;

const TDG: usize = 14;

const RX: usize = 15;

const RY: usize = 16;

const RZ: usize = 17;

const CZ: usize = 18;

const CY: usize = 19;

const CH: usize = 20;

const CCX: usize = 21;

const CRZ: usize = 22;

const CU1: usize = 23;

const U_LOWER: usize = 24;

const PHASE: usize = 25;

const CP: usize = 26;

const SWAP: usize = 27;

const CSWAP: usize = 28;

const SX: usize = 29;

const SXDG: usize = 30;

/// How many gates come before those of the tables: `U` and `CX`.
pub const PRIMITIVES: usize = 2;

/// How many of the tables' gates are those of the library's listing: the first ones.
pub const STANDARD: usize = 22;

/// The names of the tables' gates, in the order of their numbers: the library's listing, then the others.
pub static NAMES: [&[u8]; 29] = [
    b"u3", b"u2", b"u1", b"cx", b"id", b"x", b"y", b"z", b"h", b"s", b"sdg", b"t", b"tdg", b"rx",
    b"ry", b"rz", b"cz", b"cy", b"ch", b"ccx", b"crz", b"cu1", b"u", b"p", b"cp", b"swap",
    b"cswap", b"sx", b"sxdg",
];

/// How many parameters and qubits each has.
pub static SHAPES: [(usize, usize); 29] = [
    (3, 1),
    (2, 1),
    (1, 1),
    (0, 2),
    (0, 1),
    (0, 1),
    (0, 1),
    (0, 1),
    (0, 1),
    (0, 1),
    (0, 1),
    (0, 1),
    (0, 1),
    (1, 1),
    (1, 1),
    (1, 1),
    (0, 2),
    (0, 2),
    (0, 2),
    (0, 3),
    (1, 2),
    (1, 2),
    (3, 1),
    (1, 1),
    (1, 2),
    (0, 2),
    (0, 3),
    (0, 1),
    (0, 1),
];

/// The lines of all bodies.
pub static LINES: [Line; 76] = [
    (U3, GATE_U, &[Param(0), Param(1), Param(2)], &[0]),
    (U2, GATE_U, &[HalfPi, Param(0), Param(1)], &[0]),
    (U1, GATE_U, &[Zero, Zero, Param(0)], &[0]),
    (CNOT, GATE_CX, &[], &[0, 1]),
    (ID, GATE_U, &[Zero, Zero, Zero], &[0]),
    (X, U3, &[Pi, Zero, Pi], &[0]),
    (Y, U3, &[Pi, HalfPi, HalfPi], &[0]),
    (Z, U1, &[Pi], &[0]),
    (H, U2, &[Zero, Pi], &[0]),
    (S, U1, &[HalfPi], &[0]),
    (SDG, U1, &[MinusHalfPi], &[0]),
    (T, U1, &[QuarterPi], &[0]),
    (TDG, U1, &[MinusQuarterPi], &[0]),
    (RX, U3, &[Param(0), MinusHalfPi, HalfPi], &[0]),
    (RY, U3, &[Param(0), Zero, Zero], &[0]),
    (RZ, U1, &[Param(0)], &[0]),
    (CZ, H, &[], &[1]),
    (CZ, CNOT, &[], &[0, 1]),
    (CZ, H, &[], &[1]),
    (CY, SDG, &[], &[1]),
    (CY, CNOT, &[], &[0, 1]),
    (CY, S, &[], &[1]),
    (CH, H, &[], &[1]),
    (CH, SDG, &[], &[1]),
    (CH, CNOT, &[], &[0, 1]),
    (CH, H, &[], &[1]),
    (CH, T, &[], &[1]),
    (CH, CNOT, &[], &[0, 1]),
    (CH, T, &[], &[1]),
    (CH, H, &[], &[1]),
    (CH, S, &[], &[1]),
    (CH, X, &[], &[1]),
    (CH, S, &[], &[0]),
    (CCX, H, &[], &[2]),
    (CCX, CNOT, &[], &[1, 2]),
    (CCX, TDG, &[], &[2]),
    (CCX, CNOT, &[], &[0, 2]),
    (CCX, T, &[], &[2]),
    (CCX, CNOT, &[], &[1, 2]),
    (CCX, TDG, &[], &[2]),
    (CCX, CNOT, &[], &[0, 2]),
    (CCX, T, &[], &[1]),
    (CCX, T, &[], &[2]),
    (CCX, H, &[], &[2]),
    (CCX, CNOT, &[], &[0, 1]),
    (CCX, T, &[], &[0]),
    (CCX, TDG, &[], &[1]),
    (CCX, CNOT, &[], &[0, 1]),
    (CRZ, U1, &[Half(0)], &[1]),
    (CRZ, CNOT, &[], &[0, 1]),
    (CRZ, U1, &[MinusHalf(0)], &[1]),
    (CRZ, CNOT, &[], &[0, 1]),
    (CU1, U1, &[Half(0)], &[0]),
    (CU1, CNOT, &[], &[0, 1]),
    (CU1, U1, &[MinusHalf(0)], &[1]),
    (CU1, CNOT, &[], &[0, 1]),
    (CU1, U1, &[Half(0)], &[1]),
    (U_LOWER, GATE_U, &[Param(0), Param(1), Param(2)], &[0]),
    (PHASE, GATE_U, &[Zero, Zero, Param(0)], &[0]),
    (CP, U1, &[Half(0)], &[0]),
    (CP, CNOT, &[], &[0, 1]),
    (CP, U1, &[MinusHalf(0)], &[1]),
    (CP, CNOT, &[], &[0, 1]),
    (CP, U1, &[Half(0)], &[1]),
    (SWAP, CNOT, &[], &[0, 1]),
    (SWAP, CNOT, &[], &[1, 0]),
    (SWAP, CNOT, &[], &[0, 1]),
    (CSWAP, CNOT, &[], &[2, 1]),
    (CSWAP, CCX, &[], &[0, 1, 2]),
    (CSWAP, CNOT, &[], &[2, 1]),
    (SX, SDG, &[], &[0]),
    (SX, H, &[], &[0]),
    (SX, SDG, &[], &[0]),
    (SXDG, S, &[], &[0]),
    (SXDG, H, &[], &[0]),
    (SXDG, S, &[], &[0]),
];
