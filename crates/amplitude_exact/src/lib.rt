//! One entry of the unitary of some operations, exactly.
//!
//! In go a source's operations, of at most 12 wires, and two lists of bits; out comes the entry of their matrix from the one
//! to the other: a value of the ring Z[w], w the eighth root of unity, and the least power of 2 by which it is divided. The
//! contract says so by the definition of an amplitude, and nothing of the optimiser is used. At most 60 of the operations may
//! be branches, a `U` with an `a` other than 0 and 4; that keeps each whole number below 2^127. The only error is want of
//! memory.
//!
//! A column of the matrix is walked from the last operation to the first: it holds for each list of bits the entry of the
//! operations read so far, the last ones. An operation costs two looks at each of its 2^n values.
#![tactic(auto)]

mod bits;
mod columns;
mod halving;
mod values;
mod walk;

pub use halving::Amp;
pub use walk::{amplitude, branches_of};
