//! Tests of `circuit_list` and `test_circuits`: worked circuits, and random edits against a plain list.
//!
//! Each test function is proved too, so they are in a crate of their own: the two crates are proved once. A proof is long for each
//! assert in a loop, and so a test hands its rows, and the function that judges one of them by a bool, to `each_row`.
#![tactic(auto)]

#[cfg(test)]
mod circuits;
#[cfg(test)]
mod edit_tests;
#[cfg(test)]
mod far_tests;
#[cfg(test)]
mod near_tests;
#[cfg(test)]
mod plain_tests;
#[cfg(test)]
mod samples_tests;
#[cfg(test)]
mod walk_tests;
