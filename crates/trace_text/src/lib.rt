//! The lines of a text, and the trace that it holds behind `//!`.
//!
//! A text goes in. [`first_line`] gives its first line and the text behind it, and [`trace_of`] the bytes of its trace: what each
//! line says that begins with `//!`, with a line break behind it. Every text has lines and a trace, if an empty one; the only
//! error is want of memory. [`laws`] says how lines are put together, and that comments behind a text hold what was put in them.
#![tactic(auto)]

pub mod laws;
mod lines;
mod trace;

pub use lines::first_line;
pub use trace::trace_of;
