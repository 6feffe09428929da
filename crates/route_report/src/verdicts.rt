//! The line of a trace that was verified.

ghost use Rattle.std.specs.Prelude.{◌≡◌, IfOk};
ghost use Rattle.route_report.specs.Verdicts.{verdict_line};

use itoa::Buffer;
use std::alloc::{AllocError, Global};

/// The bytes of the line that says yes, with the global phase of the target against the source, in units of pi/4;
/// `Err` for want of memory alone.
pub fn verdict_line(alloc: Global, phase: u8) -> Result<Vec<u8>, AllocError>
    ensures ok { IfOk result (λ v. v.items ≡ verdict_line phase) }
{
    let mut line = Vec::new(alloc);
    line.extend_from_slice(b"yes ")?;
    let mut buffer = Buffer::new();
    line.extend_from_slice(buffer.format(phase).as_bytes())?;
    line.push(b'\n')?;
    Ok(line)
}
