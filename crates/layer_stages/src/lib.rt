//! One line for each layer of a circuit that has a gate other than H: its odd parities, and their least partition.
//!
//! In goes a circuit; out come lines with the numbers of each layer: its gates, the sums of wires that turn by an odd
//! number of eighths, the least number of independent blocks of these, and the size and the rank of a choice of them
//! that shows why no fewer can be. With spare wires a block may have as many sums more than its rank. The contract of
//! [`stage_lines`] says so of every byte. There is no bad input; want of memory leaves nothing behind.
#![tactic(auto)]

mod lines;
mod stage;

pub use lines::stage_lines;
