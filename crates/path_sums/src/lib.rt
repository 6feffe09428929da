//! Whether two circuits have one path sum, in variables that are named by wires.
//!
//! What goes in is two circuits on the same wires. What comes out is the turn from the one to the other, or that they have another
//! path sum; it is wrong of none, whatever the circuits are. No size of them is too great but for memory. [`same_sums`] walks along each
//! once, and [`same_phases`] asks of the phases only that they are the same function of the variables.
#![tactic(auto)]

mod names;
mod rows;
mod sums;
mod term;
mod touched;
mod words;

pub use sums::{same_phases, same_sums};
