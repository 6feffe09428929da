//! A place in a trace.

/// Where a walk along a trace is: the text that is left, and the number of its first line, from 1.
#[derive(Clone, Copy, Debug)]
pub(crate) struct Mark<'a> {
    pub(crate) text: &'a [u8],
    pub(crate) line: u32,
}
