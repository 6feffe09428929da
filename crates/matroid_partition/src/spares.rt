//! The partition with spares.
//!
//! It is the search of `partition` with the number k of blocks held. A row that finds no place in the k independent blocks is
//! put by. The k blocks do as long as at most k times the spares are put by, since so many are dealt out among the blocks at the
//! end. Where one more is put by, each of them is tried again; where none of them finds a place now, all that these searches
//! reached shows that k blocks are too few, and one of these rows opens another.

ghost use Rattle.std.specs.Prelude.{◌≡◌, ℕ, ◌≤◌, IfOk, List, [], length, All, vec_len};
ghost use Rattle.std.specs.List.{range_with_len};
ghost use Rattle.std.specs.List.Sorted.{IsStrictlyIncreasing};
ghost use Rattle.matroid_partition.specs.Partitions.{blocks_of};
ghost use Rattle.matroid_partition.specs.Spares.{IsSparePartition, IsSpareWitness};

use crate::dealing::{take_in, undealt};
use crate::dealt::dealt;
use crate::parts::{Parts, shown};
use crate::witness::Witness;
use gf2_linear::Row;
use std::alloc::{AllocError, Global};

/// As few blocks of nonzero rows as there can be, each with at most `spares` rows more than its rank, and a witness: a choice
/// of rows with more than (blocks - 1) times the sum of its rank and `spares`. Where all rows fit one block, each row is in
/// the witness; without rows there is neither a block nor a witness. Without spares it promises what `partition` does.
pub fn partition_spares(alloc: Global, rows: &[Row], spares: u32) -> Result<Parts, AllocError>
    requires nonzero { All (λ r. r ≡ 0 → ⊥) rows.now }
    ensures partition { IfOk result (λ p. IsSparePartition rows.now spares (blocks_of p)) }
    ensures ascending { IfOk result (λ p. All IsStrictlyIncreasing (blocks_of p)) }
    ensures witness { IfOk result (λ p. IsSpareWitness rows.now spares (blocks_of p) p.witness.items) }
    ensures least { IfOk result (λ p. (other : List (List ℕ)) → IsSparePartition rows.now spares other → vec_len p.blocks ≤ length other) }
    ensures one { IfOk result (λ p. vec_len p.blocks ≡ 1 → p.witness.items ≡ range_with_len 0 (length rows.now)) }
    ensures none { IfOk result (λ p. vec_len p.blocks ≡ 0 → p.witness.items ≡ []) }
{
    let room = spares as usize;
    let mut dealing = undealt(alloc);
    let mut witness = Witness::First(0);
    'rows: for place in 0..rows.len() {
        if let Some(reached) = take_in(alloc, rows, &mut dealing, place, room)? {
            witness = Witness::Reached(reached);
        }
    }
    let count = dealing.held.block_count();
    Ok(Parts {
        blocks: dealt(alloc, rows, &dealing, room)?,
        witness: shown(alloc, count, rows.len(), witness)?,
    })
}
