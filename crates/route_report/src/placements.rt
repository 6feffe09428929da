//! The placements between parts, put into a line byte by byte. As JSON values, of some 32 bytes a number, they would take many
//! times their text.

ghost use Rattle.std.specs.Prelude.{◌≡◌, ◌++◌, IfOk, OnOk, Some, codes, decimal};
ghost use Rattle.serde_json.specs.Written.{comma_if, compact_text};
ghost use Rattle.route_report.specs.Compact.{line, lists, wholes};
ghost use Rattle.route_report.specs.Lines.{report_line};
ghost use Rattle.route_report.specs.Unplaced.{unplaced_data};

use crate::lines::{Parts, Report};
use crate::wires::Wires;
use itoa::Buffer;
use std::alloc::{AllocError, Global};

/// A comma, if something stands before it.
fn push_comma(bytes: &mut Vec<u8>, later: bool) -> Result<(), AllocError>
    ensures { OnOk result (bytes.new.items ≡ bytes.old.items ++ comma_if later) }
{
    if !later {
        return Ok(());
    }
    bytes.push(b',')?;
    Ok(())
}

/// A number, behind a comma if one stands before it.
fn push_number(bytes: &mut Vec<u8>, later: bool, number: u32) -> Result<(), AllocError>
    ensures { OnOk result (bytes.new.items ≡ bytes.old.items ++ (comma_if later ++ decimal number)) }
{
    push_comma(bytes, later)?;
    let mut buffer = Buffer::new();
    bytes.extend_from_slice(buffer.format(number).as_bytes())?;
    Ok(())
}

/// An array of whole numbers.
#[tactic(auto, using(crate::proofs::PlacementLaws::pushes))]
fn push_numbers(bytes: &mut Vec<u8>, numbers: &[u32]) -> Result<(), AllocError>
    ensures { OnOk result (bytes.new.items ≡ bytes.old.items ++ compact_text (wholes numbers.now)) }
{
    bytes.push(b'[')?;
    let mut later = false;
    'numbers: for number in numbers {
        push_number(bytes, later, *number)?;
        later = true;
    }
    bytes.push(b']')?;
    Ok(())
}

/// Makes the text of a placement; that of the one before it stays, if both are the same.
fn note_placement(text: &mut Vec<u8>, noted: &[u32], numbers: &[u32]) -> Result<(), AllocError>
    requires { text.old.items ≡ compact_text (wholes noted.now) }
    ensures { OnOk result (text.new.items ≡ compact_text (wholes numbers.now)) }
{
    if noted == numbers {
        return Ok(());
    }
    text.clear();
    push_numbers(text, numbers)
}

/// A placement, behind a comma if one stands before it. Its text is made, or is that of the one before it.
fn push_placement(
    bytes: &mut Vec<u8>,
    later: bool,
    placement: &Wires,
    text: &mut Vec<u8>,
    noted: &[u32],
) -> Result<(), AllocError>
    requires { text.old.items ≡ compact_text (wholes noted.now) }
    ensures pushed { OnOk result (bytes.new.items ≡ bytes.old.items ++ (comma_if later ++ compact_text (wholes placement.now))) }
    ensures noted { OnOk result (text.new.items ≡ compact_text (wholes placement.now)) }
{
    note_placement(text, noted, placement.as_slice())?;
    push_comma(bytes, later)?;
    bytes.extend_from_slice(text)?;
    Ok(())
}

/// An array of placements, each an array of whole numbers. One that is the same as the one before it has the same text.
#[tactic(auto, using(crate::proofs::PlacementLaws::pushes))]
fn push_placements(
    alloc: Global,
    bytes: &mut Vec<u8>,
    placements: &[Wires],
) -> Result<(), AllocError>
    ensures { OnOk result (bytes.new.items ≡ bytes.old.items ++ compact_text (lists placements.now)) }
{
    bytes.push(b'[')?;
    let mut noted: &[u32] = &[];
    let mut text = Vec::from_slice(alloc, b"[]")?;
    let mut later = false;
    'placements: for placement in placements {
        push_placement(bytes, later, placement, &mut text, noted)?;
        noted = placement.as_slice();
        later = true;
    }
    bytes.push(b']')?;
    Ok(())
}

/// Room for so many placements and some bytes more. A number below 1,000 and its comma take four bytes.
fn room_for(placements: &[Wires], more: usize) -> usize {
    match placements.first() {
        None => more,
        Some(first) => {
            let each = first.as_slice().len().saturating_mul(4).saturating_add(3);
            placements.len().saturating_mul(each).saturating_add(more)
        }
    }
}

/// The beginning of a report line, up to the number of barriers.
fn push_barriers(bytes: &mut Vec<u8>, barriers: u64) -> Result<(), AllocError>
    ensures { OnOk result (bytes.new.items ≡ bytes.old.items ++ (codes "{\"barriers\":" ++ decimal barriers)) }
{
    bytes.extend_from_slice(b"{\"barriers\":")?;
    let mut buffer = Buffer::new();
    bytes.extend_from_slice(buffer.format(barriers).as_bytes())?;
    Ok(())
}

/// The line of a report of parts, made of its line without the placements between them: these come behind the number of barriers.
pub(crate) fn with_placements(
    alloc: Global,
    text: &[u8],
    report: &Report,
    parts: &Parts,
) -> Result<Vec<u8>, AllocError>
    requires text { text.now ≡ line (unplaced_data report.now) }
    requires parts { report.now.parts ≡ Some parts.now }
    ensures ok { IfOk result (λ v. v.items ≡ report_line report.now) }
{
    let placements = parts.between.as_slice();
    let mut bytes = Vec::with_capacity(alloc, room_for(placements, text.len()))?;
    push_barriers(&mut bytes, report.barriers)?;
    let (_head, rest) = text.split_at(bytes.len());
    bytes.extend_from_slice(b",\"between\":")?;
    push_placements(alloc, &mut bytes, placements)?;
    bytes.extend_from_slice(rest)?;
    Ok(bytes)
}
