//! The trace that a text holds.

ghost use Rattle.std.specs.Prelude.{◌≡◌, IfOk, MatchOption, codes, drop, false, true};
ghost use Rattle.trace_text.specs.Texts.{begins, trace_of};

use crate::first_line;
use std::alloc::{AllocError, Global};

/// What a line says behind `//!`. None where it doesn't begin so.
fn told(line: &[u8]) -> Option<&[u8]>
    ensures { MatchOption result (begins (codes "//!") line.now ≡ false) (λ l. (begins (codes "//!") line.now ≡ true) × (l.now ≡ drop 3 line.now)) }
{
    line.strip_prefix(b"//!".as_slice())
}

/// The trace that a text holds: what its lines say behind `//!`, one behind the other; empty where it holds none. In linear
/// time.
pub fn trace_of(alloc: Global, text: &[u8]) -> Result<Vec<u8>, AllocError>
    ensures ok { IfOk result (λ v. v.items ≡ trace_of text.now) }
{
    let mut trace = Vec::new(alloc);
    let mut rest = text;
    'lines: while let Some((line, behind)) = first_line(rest) {
        if let Some(said) = told(line) {
            trace.extend_from_slice(said)?;
            trace.push(b'\n')?;
        }
        rest = behind;
    }
    Ok(trace)
}
