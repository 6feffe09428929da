//! What is written.

use circuit_list::Circuit;
use gate_inline::Barrier;

/// A classical register.
#[derive(Clone, Copy)]
pub struct Register<'a> {
    pub name: &'a [u8],
    /// The number of its bits.
    pub size: u32,
}

/// A program to be written.
#[derive(Clone, Copy)]
pub struct Output<'a> {
    /// The gates, on the qubits of the device.
    pub body: &'a Circuit,
    /// The classical registers, in order of declaration.
    pub registers: &'a [Register<'a>],
    /// For each bit the qubit that is measured into it, or none.
    pub reads: &'a [Option<u32>],
    /// The number of gates of each part. The parts stand one after the other in the body, with a barrier between two of them.
    pub lengths: &'a [usize],
    /// The qubits that each barrier names, one at least.
    pub barriers: &'a [Barrier],
    /// The lines of a trace, each of which is written behind `//!` after the last line of the program; empty where there is none.
    pub trace: &'a [u8],
}
