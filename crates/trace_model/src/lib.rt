//! What traces mean: when a trace proves that one list of operations realises another.
//!
//! `specs/Lines.antt` says which bytes spell which lines, `specs/Proves.antt` when a line applies, and what a trace proves of a
//! claim, the operations of a source and of a target. The [`laws`] say that what a trace proves is so, whoever wrote it, and that
//! a trace proves one thing at most or stops at one line, and never both. A [`Word`] is what a line begins with.
//!
//! Nothing here reads a trace: `trace_check` tells which of the two it is.
#![tactic(auto)]

pub mod laws;
mod word;

pub use word::Word;
