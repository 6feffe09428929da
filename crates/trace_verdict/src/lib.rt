//! What a trace says of the texts of two programs: the verdict on a source, a target and a trace.
//!
//! In go three texts, of whatever length. Out comes a [`Verdict`]: yes, with the placements and the power of w up to which the
//! program of the target realises that of the source; no, with the first line of the trace that doesn't apply; or which text is
//! refused, and why, the source's refusal before the target's. The contract of [`check_trace`] says that each is exactly so, and that
//! a yes is a theorem of the two unitaries. `laws` says that there is one verdict at most, and that a program which carries its own
//! trace, as `route --trace` writes one, gets a yes.
#![tactic(auto)]

pub mod laws;
mod verdict;

pub use verdict::{TextRefusal, Verdict, check_trace};
