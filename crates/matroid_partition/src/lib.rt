//! Partition of rows into the least number of independent blocks, or of blocks with some rows more than their rank, with a
//! witness that fewer don't do.
//!
//! In go nonzero rows over the field of two elements. Out come blocks of their places: each place stands in
//! exactly one block, the rows of a block are independent, and no partition into independent blocks has fewer.
//! A witness shows why: a choice A of the rows with more than
//! (blocks - 1) * rank A rows, of which an independent block takes at most rank A. All of this is the contract
//! of `partition`; which of the least partitions it is, is not.
//!
//! The method is Edmonds' matroid partition (J. Res. NBS 69B, 1965), with a breadth-first search. Rows
//! come in one by one: a block with room takes the row; where none has room, the shortest chain of exchanges
//! that the search meets first makes some; where there is no chain, the row opens a block, and what the search
//! reached is the witness. A block with as many rows as the rank of all that came is passed over, and a row
//! of a span of which the blocks hold all that they can opens a block without a search. There is no bad
//! input; want of memory leaves nothing behind.
//!
//! `partition_spares` lets a block have some rows more than its rank, as where its circuit has wires to spare.
#![tactic(auto)]

mod blocks;
mod dealing;
mod dealt;
mod exchange;
mod flat;
mod partitioning;
mod parts;
mod roomless;
mod search;
mod spares;
mod witness;

pub use parts::{Parts, partition};
pub use spares::partition_spares;
