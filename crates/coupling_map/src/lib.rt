//! The coupling map of a device, as its text says: which qubits share a CNOT, at what cost, and how far apart two qubits are.
//!
//! In goes a device text, a TOML document: `qubits` says how many qubits there are, and each entry of
//! `edges` names two of them, the control of a CNOT first. With `format = 2` each entry has a third
//! number, what a CNOT on this edge costs; the cheapest edge of a pair counts, in both directions.
//! Without costs each pair costs 1. Out comes a [`Device`], which answers in constant time and without
//! memory whether two qubits have an edge or are near, what a near pair costs, the distance of two
//! qubits, the next qubit on a cheapest walk, and the diameter. All distances are computed once, by
//! Dijkstra's algorithm from each qubit, over any [`Cost`].
//!
//! The contracts promise that the device is the text's, by toml's own meaning of it, that it is
//! connected, and that each distance is the cost of a cheapest walk. A text that describes no device is
//! refused by the first fault of [`DeviceFault`] that applies; the contract of [`read_device`] says of
//! each fault when it comes, and [`laws`] that a text has one exactly if it describes no device, and one
//! at most. Want of memory is an error of its own.
#![tactic(auto)]

mod coupling;
mod edge_costs;
mod faults;
mod graph;
pub mod laws;
mod search;
mod text;

pub use coupling::{Device, read_device};
pub use edge_costs::{Cost, ListedCost, UnitCost};
pub use faults::{DeviceError, DeviceFault};

/// The greatest number of qubits of a device.
pub const MOST_QUBITS: u32 = 256;

/// The greatest cost of an edge.
pub const MOST_COST: u32 = 1_000_000;
