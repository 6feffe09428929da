//! Long circuits.

ghost use Rattle.std.specs.Prelude.{◌<◌};
ghost use Rattle.circuit_list.specs.Gates.{IsFine};

use crate::draws::Draws;
use circuit_list::{Circuit, Gate};
use std::alloc::{AllocError, Global};

/// A circuit of drawn gates on 64 wires.
fn drawn_circuit(alloc: Global, gates: usize) -> Result<Circuit, AllocError> {
    let mut circuit = Circuit::empty(alloc, 64)?;
    let mut draws = Draws::from_seed(1);
    'pushes: for _ in 0..gates {
        let gate = drawn_gate(&mut draws);
        circuit.push(gate)?;
    }
    Ok(circuit)
}

/// A drawn gate: a CNOT, a Hadamard gate, a NOT or a T gate.
fn drawn_gate(draws: &mut Draws) -> Gate
    ensures { IsFine 64 result }
{
    let q = draws.below(64);
    match draws.below(4) {
        0 => {
            let t = (q + 1 + draws.below(63)) % 64;
            Gate::Cx { c: q, t }
        }
        1 => Gate::H { q },
        2 => Gate::X { q },
        _ => Gate::P { k: 1, q },
    }
}

/// How many gates of a circuit are T gates.
pub fn pushed_count(alloc: Global, gates: usize) -> Result<usize, AllocError> {
    Ok(drawn_circuit(alloc, gates)?.count_t())
}

/// A place of a list, drawn.
fn drawn_place(draws: &mut Draws, len: usize) -> usize
    requires { 0 < len }
    ensures { result < len }
{
    draws.next() as usize % len
}

/// Takes all gates of a linked circuit out in a drawn order, each by its slot, and counts them.
pub fn left_by_slots(alloc: Global, gates: usize) -> Result<usize, AllocError> {
    let mut circuit = drawn_circuit(alloc, gates)?;
    circuit.link()?;
    let mut draws = Draws::from_seed(2);
    let mut taken = 0usize;
    'gates: for _ in 0..gates {
        let len = circuit.len();
        if len > 0 {
            let slot = circuit.slot(drawn_place(&mut draws, len));
            circuit.remove_at(slot);
            taken = taken.saturating_add(1);
        }
    }
    Ok(taken)
}

/// The same, each by its place.
pub fn left_by_places(alloc: Global, gates: usize) -> Result<usize, AllocError> {
    let mut circuit = drawn_circuit(alloc, gates)?;
    circuit.link()?;
    let mut draws = Draws::from_seed(2);
    let mut taken = 0usize;
    'gates: for _ in 0..gates {
        let len = circuit.len();
        if len > 0 {
            circuit.remove(drawn_place(&mut draws, len));
            taken = taken.saturating_add(1);
        }
    }
    Ok(taken)
}
