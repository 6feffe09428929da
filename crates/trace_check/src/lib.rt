//! The check of a trace: whether it proves that one list of operations realises another, and else where it stops.
//!
//! What goes in is a claim, the operations of a source and of a target, and the bytes of a trace. `trace_model` says what a trace
//! proves, by definitions and laws; [`check`] tells it, or the line at which the trace stops (`specs/Outcomes.antt`).
//! It calls no pass and no router.
#![tactic(auto)]

mod checker;
mod editions;
mod elides;
mod gates;
mod goals;
mod listed;
mod mark;
mod numbers;
mod parts;
mod routed;
mod routing;
mod words;

pub use checker::{Outcome, check};
