//! Texts and their gates, and circuits that are told apart.

use circuit_list::{Circuit, Gate};
use std::alloc::{AllocError, Global};
use test_circuits::{Kind, Random, circuit_of_text, gates_of, gates_of_text, is_turned};
use test_rows::{Wrong, each_row, field, small, word};

const FOUR_GATES: [Gate; 4] = [
    Gate::H { q: 0 },
    Gate::X { q: 2 },
    Gate::P { k: 7, q: 1 },
    Gate::Cx { c: 1, t: 0 },
];

fn are_four_gates(alloc: Global, text: &str) -> Result<bool, AllocError> {
    match circuit_of_text(alloc, 3, text)? {
        Some(body) => Ok(gates_of(alloc, &body)?.as_slice() == FOUR_GATES.as_slice()),
        None => Ok(false),
    }
}

#[test]
fn gates_by_their_texts(rt: HostRuntime) -> Result<(), Wrong> {
    each_row(rt.alloc(), "h.0 x.2 7.1 c10", "\n", are_four_gates)
}

fn is_no_circuit(alloc: Global, text: &str) -> Result<bool, AllocError> {
    Ok(circuit_of_text(alloc, 3, text)?.is_none())
}

const NO_CIRCUITS: &str = "h.3|x.0 x.3|0.0|8.0|c11|c31|c03|y.0";

#[test]
fn no_gates_by_their_texts(rt: HostRuntime) -> Result<(), Wrong> {
    each_row(rt.alloc(), NO_CIRCUITS, "|", is_no_circuit)
}

/// Whether a circuit is another up to the row's turn, or isn't, as the row says.
fn is_so(alloc: Global, before: &Circuit, after: &Circuit, row: &str) -> Result<bool, AllocError> {
    let turn = field(row, 2).parse::<u8>().unwrap_or(77);
    Ok(is_turned(alloc, before, after, turn)? == (field(row, 3) == "same"))
}

/// Whether a row's second circuit is its first in this way.
fn is_turned_so(alloc: Global, row: &str) -> Result<bool, AllocError> {
    let Some(before) = circuit_of_text(alloc, 3, field(row, 0))? else {
        return Ok(false);
    };
    match circuit_of_text(alloc, 3, field(row, 1))? {
        Some(after) => is_so(alloc, &before, &after, row),
        None => Ok(false),
    }
}

const TURNS: &str = "\
||0|same
||4|other
h.0 h.0||6|same
h.0 h.0||2|other
x.1 x.1||4|same
1.0 1.0|2.0|0|same
1.0|1.1|0|other
c01|c10|0|other
h.0 h.1 c01 h.0 h.1|c10|4|same
c02 c02||0|same";

#[test]
fn turns_by_hand(rt: HostRuntime) -> Result<(), Wrong> {
    each_row(rt.alloc(), TURNS, "\n", is_turned_so)
}

/// Whether a random circuit of a row's wires and gates is told to be itself, or isn't, as the row says.
fn is_told(alloc: Global, row: &str) -> Result<bool, AllocError> {
    let (wires, gates) = (small(row, 0), small(row, 1));
    if wires < 2 || wires > 4 {
        return Ok(false);
    }
    let body = Random::from_start(1).circuit(alloc, wires, &[Kind::X, Kind::Cx], gates)?;
    let is_same = is_turned(alloc, &body, &body, 0)?;
    Ok(body.len() == gates as usize && is_same == (word(row, 2) == "same"))
}

const LIMITS: &str = "\
3 20 same
3 21 other
2 5 other
4 5 other";

#[test]
fn tells_no_long_circuits_and_no_other_wires(rt: HostRuntime) -> Result<(), Wrong> {
    each_row(rt.alloc(), LIMITS, "\n", is_told)
}

const KINDS: [Kind; 6] = [Kind::H, Kind::X, Kind::P, Kind::S, Kind::InverseS, Kind::Cx];

/// Whether the random circuit from a row's start has the row's gates.
fn is_random(alloc: Global, row: &str) -> Result<bool, AllocError> {
    let (start, wires) = (small(field(row, 0), 0), small(field(row, 0), 1));
    if wires < 2 || wires > 4 {
        return Ok(false);
    }
    let body = Random::from_start(start as u64).circuit(alloc, wires, KINDS.as_slice(), 14)?;
    Ok(gates_of(alloc, &body)? == gates_of_text(alloc, field(row, 1))?)
}

/// Start and wires, and the gates, which a program of its own computed.
const RANDOM: &str = "\
1 4|2.2 h.0 c21 2.2 2.2 h.2 5.0 c20 x.1 5.1 5.1 2.0 c02 c03
2 4|h.0 3.0 h.3 2.2 c21 6.2 h.0 c21 4.3 2.0 c23 x.3 6.2 6.1
7 2|c01 x.1 6.1 x.0 x.0 6.1 6.1 2.1 c01 6.1 c01 c01 6.0 4.1";

#[test]
fn random_circuits_by_their_texts(rt: HostRuntime) -> Result<(), Wrong> {
    each_row(rt.alloc(), RANDOM, "\n", is_random)
}
