//! The line of one entry of a unitary.

ghost use Rattle.std.specs.Prelude.{◌≡◌, [], ◌∷◌, ◌++◌, IfOk, OnOk};
ghost use Rattle.std.specs.Fmt.{signed_decimal};
ghost use Rattle.route_report.specs.Entries.{entry_line};

use itoa::Buffer;
use std::alloc::{AllocError, Global};

/// One entry of a unitary: a + b w + c w^2 + d w^3, divided by 2^e, w being the eighth root of unity.
#[derive(Clone, Copy, Debug, PartialEq, Eq)]
pub struct Entry {
    pub a: i128,
    pub b: i128,
    pub c: i128,
    pub d: i128,
    pub e: u32,
}

/// A number and a space behind it.
fn push_part(line: &mut Vec<u8>, part: i128) -> Result<(), AllocError>
    ensures { OnOk result (line.new.items ≡ line.old.items ++ (signed_decimal part ++ 32 ∷ [])) }
{
    let mut buffer = Buffer::new();
    line.extend_from_slice(buffer.format(part).as_bytes())?;
    line.push(b' ')?;
    Ok(())
}

/// The bytes of the line of an entry: its five numbers; `Err` for want of memory alone.
pub fn entry_line(alloc: Global, entry: &Entry) -> Result<Vec<u8>, AllocError>
    ensures ok { IfOk result (λ v. v.items ≡ entry_line entry.now) }
{
    let mut line = Vec::new(alloc);
    push_part(&mut line, entry.a)?;
    push_part(&mut line, entry.b)?;
    push_part(&mut line, entry.c)?;
    push_part(&mut line, entry.d)?;
    let mut buffer = Buffer::new();
    line.extend_from_slice(buffer.format(entry.e).as_bytes())?;
    line.push(b'\n')?;
    Ok(line)
}
