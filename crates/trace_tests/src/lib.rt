//! Tests of `trace_verdict`: what no run of the program shows of a trace.
//!
//! The worked traces stand in `cases/steps.txt` and `cases/traces.txt`, as runs of `verify` and of `route --trace`. Those tell the
//! power of w alone, and end each line of a trace with a line break.
#![tactic(auto)]

#[cfg(test)]
mod verdict_tests;
