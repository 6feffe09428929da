//! Tests of `trace_text` and `qasm_writer`: the texts that are written, byte by byte.
//!
//! Each test function is proved too, so they are in a crate of their own: the crates below are proved once. A proof is long for
//! each assert in a loop, and so a test hands its rows, and the function that judges one of them by a bool, to `each_row`.
#![tactic(auto)]

#[cfg(test)]
mod comment_tests;
#[cfg(test)]
mod writer_tests;
