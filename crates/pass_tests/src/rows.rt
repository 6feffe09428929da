//! Numbers and lines of a row.

use test_rows::{field, is_line, small};

/// The number in the field at an index.
pub fn number(row: &str, at: usize) -> u32 {
    small(field(row, at), 0)
}

/// A row's first line, and the lines below it.
pub fn lines_below(row: &str) -> (&str, &str) {
    row.split_once('\n').unwrap_or((row, ""))
}

/// Whether bytes are these lines, each with its break.
pub fn are_lines(bytes: &[u8], lines: &str) -> bool {
    is_line(bytes, lines) || (bytes.is_empty() && lines.is_empty())
}
