//! Plain slow programs for the definitions of `unitary_model`, on small inputs: an entry of the
//! matrix by its recursion, and the odd path parities by their walk.
//!
//! In goes a list of operations; out comes the value, and each contract is the definition itself.
//! The limits (20 operations `U` for an entry, 64 variables for a walk) are asked of the caller, so
//! that no number overflows. Tests hold the fast ways against these; nothing else stands on them.
#![tactic(auto)]

pub mod entries;
pub mod paths;
