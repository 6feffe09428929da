//! The operations of a gate on other wires than those on which they were written.

ghost use Rattle.std.specs.Prelude.{◌≡◌, ◌++◌, ◌<◌, ◌≤◌, ◌^◌, All, List, OnOk, length, map, true};
ghost use Rattle.gate_library.specs.Operands.{wire_at as wire_there};
ghost use Rattle.unitary_model.specs.declared.Op.{Op};
ghost use Rattle.gate_inline.specs.Remembered.{part};
ghost use Rattle.gate_inline.specs.Renaming.{IsRenaming, renamed, renamed_op};

use qasm_check::Operand;
use std::alloc::AllocError;
use unitary_model::Op;

/// On how many wires a gate's operations are renamed at most: each wire is looked for among all of them.
const MOST_RENAMED: usize = 8;

/// The wire at an index of a broadcast that stands where a wire stands among others; the wire itself where it doesn't.
fn renamed(from: &[u32], places: &[Operand], j: u32, wire: u32) -> u32
    requires placed { All (λ p. wire_there j p < 2 ^ 32) places.now }
    ensures value { result ≡ renamed from.now (map (wire_there j) places.now) wire }
{
    'wires: for (i, it) in from.iter().enumerate() {
        if *it == wire {
            return match places.get(i) {
                Some(place) => place.wire_at(j) as u32,
                None => wire,
            };
        }
    }
    wire
}

/// Whether the wires at an index of a broadcast are these, renamed, and not too many. Wire 0 must stay: a line of a body that
/// names no wire has it on whatever wires its gate is.
pub fn is_renaming(from: &[u32], places: &[Operand], j: u32) -> bool
    requires placed { All (λ p. wire_there j p < 2 ^ 32) places.now }
    ensures all { result ≡ true → IsRenaming from.now (map (wire_there j) places.now) }
{
    if from.len() > MOST_RENAMED {
        return false;
    }
    if from.len() != places.len() || renamed(from, places, j, 0) != 0 {
        return false;
    }
    'wires: for (i, wire) in from.iter().enumerate() {
        if u64::from(renamed(from, places, j, *wire)) != places[i].wire_at(j) {
            return false;
        }
    }
    true
}

/// An operation on the wires of an index of a broadcast.
fn renamed_op(op: Op, from: &[u32], places: &[Operand], j: u32) -> Op
    requires placed { All (λ p. wire_there j p < 2 ^ 32) places.now }
    ensures value { result ≡ renamed_op (renamed from.now (map (wire_there j) places.now)) op }
{
    match op {
        Op::U { a, b, c, q } => Op::U {
            a,
            b,
            c,
            q: renamed(from, places, j, q),
        },
        Op::Cx { c, t } => Op::Cx {
            c: renamed(from, places, j, c),
            t: renamed(from, places, j, t),
        },
    }
}

/// Puts a part of some operations behind them once more, on the wires of an index of a broadcast.
pub fn push_renamed(
    list: &mut Vec<Op>,
    start: usize,
    end: usize,
    from: &[u32],
    places: &[Operand],
    j: u32,
) -> Result<(), AllocError>
    requires order { start ≤ end }
    requires within { end ≤ length list.old.items }
    requires placed { All (λ p. wire_there j p < 2 ^ 32) places.now }
    ensures ok { OnOk result (list.new.items ≡ list.old.items
        ++ map (renamed_op (renamed from.now (map (wire_there j) places.now))) (part list.old.items start end)) }
    ensures grown { (more : List Op) × (list.new.items ≡ list.old.items ++ more) }
{
    list.reserve(end - start)?;
    'ops: for k in start..end {
        let op = list[k];
        list.push(renamed_op(op, from, places, j))?;
    }
    Ok(())
}
