//! Tests of `spare_layers`: worked circuits, and drawn ones against a plain walk over the bits.
//!
//! Each test function is proved too, so they are in a crate of their own: `spare_layers` is proved once. A proof is long for each
//! assert in a loop, and so a test hands its rows, and the function that judges one of them by a bool, to `each_row`.
#![tactic(auto)]

#[cfg(test)]
mod spared_tests;
