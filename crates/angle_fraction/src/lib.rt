//! Exact angles, a plain fraction and a fraction of pi; the signs and functions of expressions.
//!
//! In go two angles, out comes their sum, difference, product, quotient or power, or the reason why it has none: the
//! result has a part with pi^2 or the like (`Form`), a divisor is 0 (`ZeroDivisor`), or a part of the result in lowest
//! terms is above 2^62 (`Range`). Nothing is rounded: the contract of each operation is an equation with the exact
//! arithmetic of fractions of whole numbers of any size. `eighths` tells which multiple of pi/4 an angle is. No call takes
//! memory, and each ends soon whatever the parts are.
#![tactic(auto)]

use thiserror::Error;

mod frac;
mod laws;
mod operations;
mod signs;

pub use frac::{Frac, lowest};
pub use laws::lowest_terms;
pub use operations::{add, div, eighths, mul, neg, pow, sub};
pub use signs::{Binary, Function};

/// The angle `plain + pis * pi`.
#[derive(Clone, Copy, Debug, PartialEq, Eq)]
pub struct Angle {
    /// The part without pi.
    pub plain: Frac,
    /// The factor of pi.
    pub pis: Frac,
}

/// Why an operation on angles has no answer.
#[derive(Clone, Copy, Debug, PartialEq, Eq, Error)]
pub enum AngleFault {
    /// The result is no plain number plus a multiple of pi, or an exponent is no plain whole number.
    #[error("the result is no plain number plus a multiple of pi")]
    Form,
    /// A division by 0, or a negative power of 0.
    #[error("a division by zero")]
    ZeroDivisor,
    /// The numerator or the denominator of a part of the result, once reduced, is more than 2^62 in size.
    #[error("a part of the result is above 2^62")]
    Range,
}
