//! A program's operations, cut at its barriers.

use crate::barrier::Barrier;
use unitary_model::Op;

/// The operations and reads of a program, cut at the barriers that stand outside bodies.
#[derive(Drop)]
pub struct Split {
    /// The number of wires.
    pub wires: u32,
    /// The operations before the first barrier, between two barriers, and behind the last: one part more than barriers.
    pub parts: Vec<Vec<Op>>,
    /// The wires that each barrier names, a register's ascending, each wire once in order of first naming.
    pub barriers: Vec<Barrier>,
    /// For each bit the wire that is measured into it last, or none.
    pub reads: Vec<Option<u32>>,
}
