//! The next and the last gate on a wire.

use crate::circuits::slot_at;
use circuit_list::{Circuit, Gate};
use std::alloc::{AllocError, Global};
use test_circuits::{circuit_of, circuit_of_text};
use test_rows::{Wrong, each_row, field, number, word};

/// Whether the next and the last gate on a wire are those of a row: the place of a gate, which of its wires, and the places of
/// the next and of the last gate on it.
fn is_near(circuit: &Circuit, row: &str) -> bool {
    let place = number(row, 0) as usize;
    if place >= circuit.len() {
        return false;
    }
    let slot = circuit.slot(place);
    let (next, last) = (
        slot_at(circuit, number(row, 2)),
        slot_at(circuit, number(row, 3)),
    );
    let (first, second) = circuit.gate_at(slot).wires();
    if word(row, 1) == "first" {
        return circuit.next_on(slot, first) == next && circuit.prev_on(slot, first) == last;
    }
    match second {
        Some(wire) => circuit.next_on(slot, wire) == next && circuit.prev_on(slot, wire) == last,
        None => false,
    }
}

/// The same of some rows.
fn are_near(circuit: &Circuit, rows: &str) -> bool {
    'rows: for row in rows.split(',') {
        if !is_near(circuit, row) {
            return false;
        }
    }
    true
}

/// Takes the second of three gates out, and tells whether the third is now the second, under its slot.
fn closes(circuit: &mut Circuit) -> bool {
    if circuit.len() != 3 {
        return false;
    }
    let third = circuit.slot(2);
    circuit.remove(1);
    slot_at(circuit, 1) == Some(third) && circuit.len() == 2
}

/// Whether three gates on two wires have the rows of a case, and those that are left after a removal have its last rows.
fn is_linked(alloc: Global, case: &str) -> Result<bool, AllocError> {
    let Some(mut circuit) = circuit_of_text(alloc, 2, field(case, 0))? else {
        return Ok(false);
    };
    Ok(
        are_near(&circuit, field(case, 1))
            && closes(&mut circuit)
            && are_near(&circuit, field(case, 2)),
    )
}

#[test]
fn finds_the_next_gate_on_a_wire(rt: HostRuntime) -> Result<(), Wrong> {
    let case = "h.0 c01 1.1|0 first 1 -,1 second 2 -,2 first - 1|0 first - -,1 first - -";
    each_row(rt.alloc(), case, "\n", is_linked)
}

const FAR_WIRES: [Gate; 6] = [
    Gate::Cx { c: 1, t: 193 },
    Gate::H { q: 65 },
    Gate::H { q: 129 },
    Gate::X { q: 193 },
    Gate::H { q: 1 },
    Gate::Cx { c: 65, t: 129 },
];

/// Whether the next gates of a row are told apart.
fn is_apart(alloc: Global, row: &str) -> Result<bool, AllocError> {
    match circuit_of(alloc, 256, FAR_WIRES.as_slice())? {
        Some(circuit) => Ok(is_near(&circuit, row)),
        None => Ok(false),
    }
}

const NEAR_OF_FAR_WIRES: &str = "\
0 first 4 -
0 second 3 -
1 first 5 -
5 first - 1
5 second - 2";

/// Wires that differ by a multiple of 64 are told apart.
#[test]
fn tells_wires_of_one_bit_apart(rt: HostRuntime) -> Result<(), Wrong> {
    each_row(rt.alloc(), NEAR_OF_FAR_WIRES, "\n", is_apart)
}
