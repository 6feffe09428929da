//! Walks along a wire, by what the contracts say of the next gate.

ghost use Rattle.std.specs.Prelude.{◌≡◌, ℕ, drop, false, remove, true};
ghost use Rattle.std.specs.List.{count_by};
ghost use Rattle.circuit_list.specs.Gates.{is_on};
ghost use Rattle.circuit_list.specs.Slots.{IsLive, IsNextOn, NoneBehind, is_on_at, place_of};

use crate::circuits::has_gates;
use circuit_list::{Circuit, Slot};
use std::alloc::{AllocError, Global};
use test_circuits::circuit_of_text;
use test_rows::{Wrong, each_row};

/// The number of gates on a wire from a gate on it on, by a walk along the wire.
fn gates_on(circuit: &Circuit, start: Slot, wire: u32) -> usize
    requires live { IsLive circuit.now start }
    requires on { is_on_at wire circuit.now.gates (place_of start circuit.now.slots) ≡ true }
    ensures { result ≡ count_by (is_on wire) (drop (place_of start circuit.now.slots) circuit.now.gates) }
{
    let _gates = circuit.len();
    let mut count = 1;
    let mut slot = start;
    'walk: while let Some(next) = circuit.next_on(slot, wire) {
        count += 1;
        slot = next;
    }
    count
}

/// Takes a gate and the next one on a wire out, if there is a next one.
fn take_out_pair(circuit: &mut Circuit, first: Slot, wire: u32) -> bool
    requires live { IsLive circuit.old first }
    requires on { is_on_at wire circuit.old.gates (place_of first circuit.old.slots) ≡ true }
    ensures wires { circuit.new.wires ≡ circuit.old.wires }
    ensures taken { result ≡ true → (j : ℕ) × (IsNextOn wire circuit.old.gates (place_of first circuit.old.slots) j
        × (circuit.new.gates ≡ remove (remove circuit.old.gates j) (place_of first circuit.old.slots))) }
    ensures alone { result ≡ false → NoneBehind wire circuit.old.gates (place_of first circuit.old.slots) }
{
    let Some(second) = circuit.next_on(first, wire) else {
        return false;
    };
    circuit.remove_at(second);
    circuit.remove_at(first);
    true
}

/// The gates from a place on that are on the first or the second wire of the gate there.
fn counted(circuit: &Circuit, place: usize) -> (usize, usize) {
    if place >= circuit.len() {
        return (0, 0);
    }
    let slot = circuit.slot(place);
    let (first, second) = circuit.gate_at(slot).wires();
    let second = second.unwrap_or(first);
    (
        gates_on(circuit, slot, first),
        gates_on(circuit, slot, second),
    )
}

/// Takes the gate at a place and the next one on its first wire out, if both are there.
fn take_out(circuit: &mut Circuit, place: usize) -> bool {
    if place >= circuit.len() {
        return false;
    }
    let slot = circuit.slot(place);
    let (wire, _) = circuit.gate_at(slot).wires();
    take_out_pair(circuit, slot, wire)
}

/// Whether the counts along the first gate's wires are right, a pair goes out, and then no other is there.
fn is_walked(alloc: Global, circuit: &mut Circuit) -> Result<bool, AllocError> {
    Ok(
        counted(circuit, 0) == (4, 2)
            && take_out(circuit, 2)
            && has_gates(alloc, circuit, "c02 h.1 c12 1.0")?
            && circuit.len() == 4
            && !take_out(circuit, 3)
            && circuit.len() == 4,
    )
}

fn are_walked(alloc: Global, gates: &str) -> Result<bool, AllocError> {
    match circuit_of_text(alloc, 3, gates)? {
        Some(mut circuit) => is_walked(alloc, &mut circuit),
        None => Ok(false),
    }
}

#[test]
fn walks_along_a_wire(rt: HostRuntime) -> Result<(), Wrong> {
    each_row(rt.alloc(), "c02 h.1 h.0 c12 h.0 1.0", "\n", are_walked)
}
