//! The layers of a circuit, by levels of its wires, and the law that a walk along its gates finds the same.
//!
//! In goes a circuit; [`layers`] takes it apart into gates other than H and, behind them, an H on each of some wires. Each wire
//! has a level, and a gate is put into its layer at once. [`laws`] has the law that these layers are those of a walk that takes
//! in each turn the gates on free wires and then the H that are first on theirs. Every circuit has layers; the only error is
//! want of memory.
#![tactic(auto)]

pub mod laws;
mod levels;

pub use levels::{Layer, layers};
