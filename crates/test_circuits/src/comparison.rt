//! The comparison of circuits on three wires, by the plain amplitude program.

ghost use Rattle.std.specs.Prelude.{◌≡◌, IfOk};
ghost use Rattle.circuit_list.specs.Gates.{op_of, ops};

use crate::{doubled, entry, halvings, turned};
use circuit_list::{Circuit, Gate};
use std::alloc::{AllocError, Global};
use unitary_model::Op;

/// Whether each entry of a circuit's matrix is `w^turn` times that of the circuit before; false where one of the two has
/// more than 20 gates, or other than three wires.
pub fn is_turned(
    alloc: Global,
    before: &Circuit,
    after: &Circuit,
    turn: u8,
) -> Result<bool, AllocError> {
    if before.wires() != 3 || after.wires() != 3 {
        return Ok(false);
    }
    let old = operations(alloc, before)?;
    let new = operations(alloc, after)?;
    Ok(are_turned(&old, &new, turn))
}

/// The same of two lists of operations on three wires.
pub fn are_turned(old: &[Op], new: &[Op], turn: u8) -> bool {
    if old.len() > 20 || new.len() > 20 {
        return false;
    }
    // so that values of two lists have one power of two
    let (old_halvings, new_halvings) = (halvings(old), halvings(new));
    for place in 0u8..64 {
        let (from, to) = (place / 8, place % 8);
        let before = doubled(entry(old, &mut bits(from), &bits(to)), new_halvings);
        let after = doubled(entry(new, &mut bits(from), &bits(to)), old_halvings);
        if after != turned(before, turn) {
            return false;
        }
    }
    true
}

/// The gates of a circuit as operations, one by one.
pub fn operations(alloc: Global, body: &Circuit) -> Result<Vec<Op>, AllocError>
    ensures ok { IfOk result (λ v. v.items ≡ ops body.now.gates) }
{
    let mut ops = Vec::new(alloc);
    'places: for i in 0..body.len() {
        ops.push(operation(body.gate(i)))?;
    }
    Ok(ops)
}

fn operation(gate: Gate) -> Op
    ensures { result ≡ op_of gate }
{
    let (a, c, q) = match gate {
        Gate::H { q } => (2, 4, q),
        Gate::X { q } => (4, 4, q),
        Gate::P { k, q } => (0, k, q),
        Gate::Cx { c, t } => return Op::Cx { c, t },
    };
    Op::U { a, b: 0, c, q }
}

/// The bits of three wires, the lowest for the first.
fn bits(number: u8) -> [bool; 3] {
    [number & 1 != 0, number & 2 != 0, number & 4 != 0]
}
