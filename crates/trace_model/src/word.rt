//! The words of the lines of a trace.

/// The word that a line begins with.
#[derive(Clone, Copy, Debug, PartialEq, Eq)]
pub enum Word {
    Trace,
    Rule,
    Both,
    Join,
    Sums,
    Part,
    Phases,
    Goal,
    Meet,
    Place,
    Emit,
    Back,
    Elide,
    Swap,
    Turn,
    End,
}
