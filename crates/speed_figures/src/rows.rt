//! Many rows, and square matrices.

ghost use Rattle.std.specs.Prelude.{◌≡◌, ◌<◌, All, IfOk, length};

use crate::draws::Draws;
use cnot_synth::synth;
use gf2_linear::{Matrix, Row, complete, invert, is_independent};
use matroid_partition::partition;
use std::alloc::{AllocError, Global};

/// The row whose wires are the bits of a number.
fn row_of(mask: u64) -> Row {
    let mut row = Row::empty();
    for wire in 0u32..64 {
        if mask >> wire & 1 == 1 {
            row.flip(wire);
        }
    }
    row
}

/// The number of blocks of some rows; those without wires are left out.
fn blocks_of(alloc: Global, masks: &[u64]) -> Result<usize, AllocError> {
    let rows = nonzero_rows(alloc, masks)?;
    Ok(partition(alloc, &rows)?.blocks.len())
}

/// The rows of some masks that have wires.
fn nonzero_rows(alloc: Global, masks: &[u64]) -> Result<Vec<Row>, AllocError>
    ensures { IfOk result (λ v. All (λ r. r ≡ 0 → ⊥) v.items) }
{
    let mut rows = Vec::new(alloc);
    'masks: for mask in masks {
        let row = row_of(*mask);
        if !row.is_empty() {
            rows.push(row)?;
        }
    }
    Ok(rows)
}

/// The blocks of drawn rows on 64 wires.
pub fn blocks_of_drawn(alloc: Global, count: u32) -> Result<usize, AllocError> {
    let mut draws = Draws::from_seed(3);
    let mut masks = Vec::new(alloc);
    for _ in 0..count {
        let upper = draws.next() as u64;
        masks.push(upper << 32 | draws.next() as u64)?;
    }
    blocks_of(alloc, &masks)
}

/// The blocks of the numbers from 1 up.
pub fn blocks_of_counted(alloc: Global, count: u32) -> Result<usize, AllocError> {
    let mut masks = Vec::new(alloc);
    for number in 1..count {
        masks.push(number as u64)?;
    }
    blocks_of(alloc, &masks)
}

/// The blocks of the numbers below a power of two, in an order that an odd factor makes.
pub fn blocks_of_scattered(alloc: Global, count: u32) -> Result<usize, AllocError>
    requires positive { 0 < count }
{
    let mut masks = Vec::new(alloc);
    for number in 1..count {
        masks.push((number.wrapping_mul(40_503) % count) as u64)?;
    }
    blocks_of(alloc, &masks)
}

/// The pairs of a drawn matrix of 64 rows, so often: its inverse is made, half of its rows completed, and its pairs found.
pub fn pairs_of_matrices(alloc: Global, times: usize) -> Result<usize, AllocError> {
    let mut draws = Draws::from_seed(4);
    let mut pairs = 0usize;
    for _ in 0..times {
        let matrix = drawn_matrix(alloc, &mut draws)?;
        pairs = pairs.saturating_add(pairs_of(alloc, &matrix)?);
    }
    Ok(pairs)
}

/// A matrix of 64 rows that drawn additions make of the identity.
fn drawn_matrix(alloc: Global, draws: &mut Draws) -> Result<Matrix, AllocError>
    ensures { IfOk result (λ m. length m ≡ 64) }
{
    let mut matrix = Matrix::identity(alloc, 64)?;
    'additions: for _ in 0..1000 {
        let from = draws.below(64);
        let to = (from + 1 + draws.below(63)) % 64;
        matrix.add(from, to);
    }
    Ok(matrix)
}

/// The pairs of a matrix whose rows are independent, and the rows of its inverse and of its first rows completed.
fn pairs_of(alloc: Global, matrix: &Matrix) -> Result<usize, AllocError> {
    match invert(alloc, matrix)? {
        None => Ok(0),
        Some(inverse) => {
            matrix.facts();
            let completed = complete(alloc, matrix.rows(), matrix.wires())?;
            let pairs = synth(alloc, matrix)?;
            Ok(
                pairs
                    .len()
                    .saturating_add(inverse.wires() as usize)
                    .saturating_add(completed.wires() as usize),
            )
        }
    }
}
