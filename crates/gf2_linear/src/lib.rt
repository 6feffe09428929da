//! Linear algebra over the field of two elements, on rows of up to 256 wires: rank, sums, completion, products and inverses.
//!
//! In go rows, each a set of wires; their sum is the symmetric difference. Out come the rank of rows, whether they are
//! independent, the places of rows that sum to another, a square matrix that has given rows, and the inverse of a matrix.
//! Contracts see a row as the number whose bits are its wires, and a matrix as the list of its rows. Independence and
//! rank are defined by all choices of rows, and each call is exact both ways: where it answers that there is no sum
//! or no inverse, there is none. A `Basis` keeps independent rows in reduced form, so that a row is brought in, or told
//! as a sum, in time linear in their number. Where spare wires stand beside the others, `complete_wide` completes rows
//! that needn't be independent, and `widened` makes a matrix of rows on wires and spares. There is no bad input: callers
//! keep wires below the limit, and ask `is_independent` or `rank` where a call wants independent rows, or enough spares.
//! Want of memory leaves nothing behind.
#![tactic(auto)]

mod bases;
mod elimination;
mod matrices;
mod rows;
mod sums;
mod wide;

pub use bases::Basis;
pub use elimination::{additions, invert, quotient};
pub use matrices::Matrix;
pub use rows::{MOST_WIRES, Row};
pub use sums::{basis_of, complete, express, is_independent, places_in, rank};
pub use wide::{complete_wide, widened};
