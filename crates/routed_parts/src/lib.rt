//! Parts of a program that stand for those of its source, on their own wires or on the qubits of a device.
//!
//! `specs/Settled.antt` says what a settled program is, `specs/Runs.antt` when parts are what the routing machine writes, each from
//! where the one before it ended. `laws` says that such parts stand for the whole source, with few swaps.
#![tactic(auto)]

pub mod laws;
