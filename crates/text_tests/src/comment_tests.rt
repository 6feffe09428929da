//! Traces in comments, and the lines of a text.

use std::alloc::{AllocError, Global};
use test_rows::{Wrong, each_row};
use trace_text::{first_line, trace_of};

/// Whether a row's text has its trace.
fn is_trace(alloc: Global, row: &str) -> Result<bool, AllocError> {
    let (text, trace) = row.split_once(" => ").unwrap_or((row, "none"));
    Ok(trace_of(alloc, text.as_bytes())?.as_slice() == trace.as_bytes())
}

/// Texts and their traces. Rows stand apart by a line of dots.
const TRACES: &str = " => \
\n....\n// no trace\nqreg q[1];\n => \
\n....\nh q[0]; //! behind a statement\n => \
\n....\n//!TRACE 1\nh q[0];\n//!rule 3 0\n => TRACE 1\nrule 3 0\n\
\n....\n\n//!\n\n//! two words\n => \n two words\n\
\n....\n//!first\n//!last => first\nlast\n\
\n....\n //!with a blank before\n\t//!and a tab\n => \
\n....\n//!kept\r\n//! !\n => kept\r\n !\n\
\n....\n//\n/!\n/ /!\n//!//!\n => //!\n";

#[test]
fn gives_the_trace(rt: HostRuntime) -> Result<(), Wrong> {
    each_row(rt.alloc(), TRACES, "\n....\n", is_trace)
}

/// Whether a text has this first line, and this rest.
fn is_first(text: &str, line: &str, rest: &str) -> bool {
    match first_line(text.as_bytes()) {
        Some((first, others)) => first == line.as_bytes() && others == rest.as_bytes(),
        None => false,
    }
}

#[test]
fn gives_the_first_line(rt: HostRuntime) {
    assert!(rt; first_line(b"").is_none());
    assert!(rt; is_first("\n", "", "") && is_first("a", "a", ""));
    assert!(rt; is_first("a\nb", "a", "b") && is_first("\n\nb\n", "", "\nb\n"));
}
