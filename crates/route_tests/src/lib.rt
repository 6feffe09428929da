//! Tests of `placement`, `coupling_map`, `wire_starts` and `sabre_route`: worked devices, exchanges, starts and events.
//!
//! Each test function is proved too, so they stand in a crate of their own: these crates are proved once. A proof is
//! long for each assert in a loop, so a test hands its rows and the function that judges one of them to `each_row`.
//! What a run of the program shows is not here: `cases/route.txt` and `cases/initial.txt` have worked routes, and
//! `tools/tests/test_routing.py` compares routes of drawn circuits with a plain routing machine.
#![tactic(auto)]

#[cfg(test)]
mod device_tests;
#[cfg(test)]
mod event_tests;
#[cfg(test)]
mod placement_tests;
#[cfg(test)]
mod start_tests;
