//! Tests of `outside_io` and `route_report`: what is read, kept and told, byte by byte.
//!
//! Each test function is proved too, so they are in a crate of their own: the crates below are proved once. A proof is long for
//! each assert in a loop, and so a test has one: small functions judge a row of a text by a bool.
#![tactic(auto)]

#[cfg(test)]
mod device_tests;
#[cfg(test)]
mod entry_tests;
#[cfg(test)]
mod io_tests;
#[cfg(test)]
mod report_tests;
