//! Circuits worked by hand, and drawn ones against a plain walk over the bits.

ghost use Rattle.std.specs.Prelude.{◌≡◌};

use circuit_list::{Circuit, Gate};
use spare_layers::with_spares;
use std::alloc::{AllocError, Global};
use test_circuits::{Kind, Random, circuit_of_text, gates_of, gates_of_text};
use test_rows::{Wrong, each_row, field, small};

/// The gates of a circuit, those with spares, and the turn.
#[derive(Drop)]
struct Spared {
    before: Vec<Gate>,
    after: Vec<Gate>,
    turn: u8,
}

/// Those of the circuit of a text on three wires, if it is one.
fn of_text(alloc: Global, text: &str, spares: u32) -> Result<Option<Spared>, AllocError> {
    let Some(body) = circuit_of_text(alloc, 3, text)? else {
        return Ok(None);
    };
    let lists = made(alloc, &body, spares)?;
    Ok(Some(lists))
}

/// Those of a circuit.
fn made(alloc: Global, body: &Circuit, spares: u32) -> Result<Spared, AllocError>
    requires { body.now.wires ≡ 3 }
{
    let before = gates_of(alloc, body)?;
    let passed = with_spares(alloc, spares % 100, body)?;
    let after = gates_of(alloc, &passed.body)?;
    Ok(Spared {
        before,
        after,
        turn: passed.turn,
    })
}

/// The bits and the turn after some gates without H.
fn walk(gates: &[Gate], bits: u32) -> (u32, u8) {
    let mut bits = bits;
    let mut turn = 0u8;
    for gate in gates {
        match *gate {
            Gate::H { q: _ } => {}
            Gate::X { q } => {
                bits ^= 1 << (q & 31);
                turn = (turn % 8 + 2) % 8;
            }
            Gate::P { k, q } => {
                if bits >> (q & 31) & 1 == 1 {
                    turn = (turn % 8 + k % 8) % 8;
                }
            }
            Gate::Cx { c, t } => {
                if bits >> (c & 31) & 1 == 1 {
                    bits ^= 1 << (t & 31);
                }
            }
        }
    }
    (bits, turn)
}

/// Whether the gates with spares do what those on three wires do, up to the turn, if the spares start at zero.
fn is_same(lists: &Spared) -> bool {
    for bits in 0u32..8 {
        let (from, turn) = walk(&lists.before, bits);
        let (to, other) = walk(&lists.after, bits);
        if from != to || other % 8 != (turn % 8 + lists.turn % 8) % 8 {
            return false;
        }
    }
    true
}

/// How many lists of phases are in a list of gates.
fn blocks(gates: &[Gate]) -> u32 {
    let mut count = 0u32;
    let mut within = false;
    for gate in gates {
        let is_phase = matches!(gate, Gate::P { k: _, q: _ });
        if is_phase && !within {
            count = count.saturating_add(1);
        }
        within = is_phase;
    }
    count
}

/// The seven sums of three wires are one block if four wires more are there, and two if three are. Without spares the layer stays as
/// it is, with phases at five places.
const SEVEN_SUMS: &str = "1.0 1.1 1.2 c01 7.1 c12 1.2 c01 c12 7.2 c12 c02 7.2 x.1 c02";

/// Whether the gates of the seven sums do the same with the spares of a row, in as many blocks as it says.
fn is_spared(alloc: Global, row: &str) -> Result<bool, AllocError> {
    match of_text(alloc, SEVEN_SUMS, small(row, 0))? {
        Some(lists) => Ok(is_same(&lists) && blocks(&lists.after) == small(row, 1)),
        None => Ok(false),
    }
}

#[test]
fn seven_sums(rt: HostRuntime) -> Result<(), Wrong> {
    each_row(rt.alloc(), "4 1|3 2|0 5", "|", is_spared)
}

/// Whether the gates of a row become its others with four spares, and turn nothing.
fn is_kept(alloc: Global, row: &str) -> Result<bool, AllocError> {
    let expected = gates_of_text(alloc, field(row, 1))?;
    match of_text(alloc, field(row, 0), 4)? {
        Some(lists) => Ok(lists.after.as_slice() == expected.as_slice() && lists.turn == 0),
        None => Ok(false),
    }
}

/// A layer with one sum needs no spare: it stays, with its H after the gates that they don't stop.
#[test]
fn kept_layers(rt: HostRuntime) -> Result<(), Wrong> {
    let row = "1.0 c01 h.1 1.1 x.2|1.0 c01 x.2 h.1 1.1";
    each_row(rt.alloc(), row, "\n", is_kept)
}

/// Whether forty drawn circuits without H, from a start, do the same on the bits with as many spares.
fn are_same(alloc: Global, start: &str) -> Result<bool, AllocError> {
    let spares = small(start, 0);
    let mut random = Random::from_start(u64::from(spares));
    for _ in 0..40 {
        let body = random.circuit(alloc, 3, &[Kind::P, Kind::Cx, Kind::P, Kind::X], 24)?;
        if !is_same(&made(alloc, &body, spares)?) {
            return Ok(false);
        }
    }
    Ok(true)
}

#[test]
fn drawn_circuits(rt: HostRuntime) -> Result<(), Wrong> {
    each_row(rt.alloc(), "1 2 3 4", " ", are_same)
}
