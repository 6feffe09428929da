//! Circuits that another program worked out, and drawn rows that are brought to others.

use crate::rows::{added, pairs, rows_of};
use cnot_synth::{synth, synth_between, synth_wide};
use gf2_linear::{Matrix, Row, additions, rank};
use std::alloc::{AllocError, Global};
use test_rows::{Wrong, each_row, field, numbers, small};

/// Whether the circuit of a row, over its wires, comes back from the elimination of what it makes.
fn comes_back(alloc: Global, row: &str) -> Result<bool, AllocError> {
    let matrix = added(alloc, small(field(row, 0), 0), field(row, 1))?;
    let Some(_log) = additions(alloc, &matrix)? else {
        return Ok(false);
    };
    let found = synth(alloc, &matrix)?;
    Ok(found.as_slice() == pairs(alloc, field(row, 1))?.as_slice())
}

/// Wires, and the CNOTs between two of them.
const CIRCUITS: &str = "\
2|1.0,0.1
3|2.1,2.0,1.2,1.0,2.1,0.2,2.0
4|3.1,2.3,2.1,2.0,3.2,1.2,0.1
5|4.2,3.4,3.1,3.0,4.3,2.4,1.4,0.3,0.1,1.0";

/// Circuits that the elimination of what they make gives back, worked out by another program. The first makes the
/// rows {0,1}, {0}, and the second {1}, {2}, {0}.
#[test]
fn the_same_pairs(rt: HostRuntime) -> Result<(), Wrong> {
    each_row(rt.alloc(), CIRCUITS, "\n", comes_back)
}

/// Whether the matrix of a row's first additions is brought to that of its second by its pairs, on four wires.
fn is_between(alloc: Global, row: &str) -> Result<bool, AllocError> {
    let from = added(alloc, 4, field(row, 0))?;
    let to = added(alloc, 4, field(row, 1))?;
    let Some(_from) = additions(alloc, &from)? else {
        return Ok(false);
    };
    let Some(_to) = additions(alloc, &to)? else {
        return Ok(false);
    };
    if from.wires() != to.wires() {
        return Ok(false);
    }
    let found = synth_between(alloc, &from, &to)?;
    Ok(found.as_slice() == pairs(alloc, field(row, 2))?.as_slice())
}

/// From {0,3}, {0,1}, {0,1,2}, {3} to {0}, {1,2,3}, {0,2}, {2,3}, worked out by another program.
#[test]
fn between_matrices(rt: HostRuntime) -> Result<(), Wrong> {
    let row = "0.1,1.2,3.0|2.3,3.1,0.2|3.2,3.1,3.0,2.3,1.3,1.2,2.1,0.2,0.1";
    each_row(rt.alloc(), row, "\n", is_between)
}

/// Whether the bit of one wire comes to a spare by some pairs.
fn is_spread(alloc: Global, wanted: &str) -> Result<bool, AllocError> {
    let from = vec![in alloc; Row::unit(0), Row::empty()]?;
    let to = vec![in alloc; Row::unit(0), Row::unit(0)]?;
    let (from_rank, to_rank) = (rank(alloc, &from)?, rank(alloc, &to)?);
    if from_rank != 1 || to_rank != 1 {
        return Ok(false);
    }
    let found = synth_wide(alloc, &from, &to, 1)?;
    Ok(found.as_slice() == pairs(alloc, wanted)?.as_slice())
}

/// One wire, whose bit a spare gets.
#[test]
fn onto_a_spare(rt: HostRuntime) -> Result<(), Wrong> {
    each_row(rt.alloc(), "0.1", "\n", is_spread)
}

/// Whether pairs of different places, at most 25 of them, bring some sets to others.
fn brings(from: &[u32], to: &[u32], pairs: &[(u32, u32)]) -> bool {
    let mut sets = [0; 5];
    'sets: for (set, first) in sets.iter_mut().zip(from.iter()) {
        *set = *first;
    }
    'pairs: for pair in pairs {
        if pair.0 == pair.1 || pair.0 >= 5 || pair.1 >= 5 {
            return false;
        }
        let added = sets[pair.0 as usize];
        sets[pair.1 as usize] ^= added;
    }
    pairs.len() <= 25 && sets.as_slice() == to
}

/// Whether five rows of three wires, whose rank is three, are brought to five others, all spelt by numbers.
fn is_brought(alloc: Global, row: &str) -> Result<bool, AllocError> {
    let first = numbers(alloc, field(row, 0))?;
    let second = numbers(alloc, field(row, 1))?;
    let from = rows_of(alloc, &first)?;
    let to = rows_of(alloc, &second)?;
    if from.len() != 5 || to.len() != 5 {
        return Ok(false);
    }
    let (from_rank, to_rank) = (rank(alloc, &from)?, rank(alloc, &to)?);
    if from_rank != 3 || to_rank != 3 {
        return Ok(false);
    }
    let pairs = synth_wide(alloc, &from, &to, 3)?;
    Ok(brings(&first, &second, &pairs))
}

/// Drawn rows of rank three, on three wires and two spares.
const BROUGHT: &str = "\
5,0,3,4,2|4,1,7,6,1
7,1,5,4,1|5,2,1,1,1
1,2,7,3,1|1,7,3,7,0
2,6,2,6,1|1,7,7,4,1
5,4,4,0,7|7,0,6,3,7
4,6,5,1,2|0,2,7,6,2";

#[test]
fn between_drawn_rows(rt: HostRuntime) -> Result<(), Wrong> {
    each_row(rt.alloc(), BROUGHT, "\n", is_brought)
}
