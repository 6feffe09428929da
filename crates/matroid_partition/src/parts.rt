//! The partition.

ghost use Rattle.std.specs.Prelude.{◌≡◌, ℕ, ◌≤◌, IfOk, List, [], length, All, vec_len};
ghost use Rattle.std.specs.List.{range_with_len};
ghost use Rattle.std.specs.List.Sorted.{IsStrictlyIncreasing};
ghost use Rattle.matroid_partition.specs.Blocks.{shown_by};
ghost use Rattle.matroid_partition.specs.Partitions.{IsPartition, IsWitness, blocks_of};

use crate::flat::no_flat;
use crate::partitioning::Partitioning;
use crate::witness::{Witness, listed, places_below};
use gf2_linear::Row;
use std::alloc::{AllocError, Global};

/// The blocks, each the ascending places of its rows, and a choice of rows that no fewer blocks could take.
#[derive(Drop)]
pub struct Parts {
    pub blocks: Vec<Vec<usize>>,
    pub witness: Vec<usize>,
}

/// As few independent blocks of nonzero rows as there can be, and a witness. Where all rows fit one block, each
/// row is in the witness; without rows there is neither a block nor a witness.
pub fn partition(alloc: Global, rows: &[Row]) -> Result<Parts, AllocError>
    requires nonzero { All (λ r. r ≡ 0 → ⊥) rows.now }
    ensures partition { IfOk result (λ p. IsPartition rows.now (blocks_of p)) }
    ensures ascending { IfOk result (λ p. All IsStrictlyIncreasing (blocks_of p)) }
    ensures witness { IfOk result (λ p. IsWitness rows.now (blocks_of p) p.witness.items) }
    ensures least { IfOk result (λ p. (other : List (List ℕ)) → IsPartition rows.now other → vec_len p.blocks ≤ length other) }
    ensures one { IfOk result (λ p. vec_len p.blocks ≡ 1 → p.witness.items ≡ range_with_len 0 (length rows.now)) }
    ensures none { IfOk result (λ p. vec_len p.blocks ≡ 0 → p.witness.items ≡ []) }
{
    let mut underway = Partitioning::none(alloc);
    let mut flat = no_flat(alloc);
    let mut witness = Witness::First(0);
    'rows: for row in rows {
        if let Some(reached) = underway.bring(alloc, row, &mut flat)? {
            witness = reached;
        }
    }
    let blocks = underway.into_places(alloc)?;
    let witness = shown(alloc, blocks.len(), rows.len(), witness)?;
    Ok(Parts { blocks, witness })
}

/// The witness for so many blocks: all rows where there is one.
pub fn shown(
    alloc: Global,
    count: usize,
    rows: usize,
    witness: Witness,
) -> Result<Vec<usize>, AllocError>
    ensures one { IfOk result (λ v. count ≡ 1 → v.items ≡ range_with_len 0 rows) }
    ensures other { IfOk result (λ v. (count ≡ 1 → ⊥) → v.items ≡ shown_by witness) }
{
    if count != 1 {
        return listed(alloc, witness);
    }
    let all = places_below(alloc, rows)?;
    Ok(all)
}
