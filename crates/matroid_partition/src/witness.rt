//! What a search reached, and rows that show why another one opened a block.

ghost use Rattle.std.specs.Prelude.{◌≡◌, IfOk, map};
ghost use Rattle.std.specs.List.{range_with_len};
ghost use Rattle.matroid_partition.specs.Blocks.{shown_by};
ghost use Rattle.matroid_partition.specs.Closed.{places_seen};

use crate::blocks::Block;
use std::alloc::{AllocError, Global};

/// What was reached from a row that found no place.
#[derive(Drop)]
pub enum ReachedRows {
    /// All rows.
    Every,
    /// Each row that is marked; the new one is behind the others.
    Seen(Vec<bool>),
}

/// Rows that show why another one opened a block.
#[derive(Drop)]
pub enum Witness {
    /// The first rows, so many.
    First(usize),
    /// The rows at some places, which a search reached.
    Reached(Vec<usize>),
}

/// The numbers below `count`.
pub fn places_below(alloc: Global, count: usize) -> Result<Vec<usize>, AllocError>
    ensures ok { IfOk result (λ v. v.items ≡ range_with_len 0 count) }
{
    let mut places = Vec::new(alloc);
    'places: for place in 0..count {
        places.push(place)?;
    }
    Ok(places)
}

/// The places that were seen, ascending.
pub fn seen_places(alloc: Global, seen: &[bool]) -> Result<Vec<usize>, AllocError>
    ensures ok { IfOk result (λ v. v.items ≡ places_seen seen.now) }
{
    let mut places = Vec::new(alloc);
    'places: for (place, is_seen) in seen.iter().enumerate() {
        if *is_seen {
            places.push(place)?;
        }
    }
    Ok(places)
}

/// The places of a witness.
pub fn listed(alloc: Global, witness: Witness) -> Result<Vec<usize>, AllocError>
    ensures ok { IfOk result (λ v. v.items ≡ shown_by witness) }
{
    match witness {
        Witness::First(count) => places_below(alloc, count),
        Witness::Reached(places) => Ok(places),
    }
}

/// The places of all blocks.
pub fn places_of(alloc: Global, blocks: Vec<Block>) -> Result<Vec<Vec<usize>>, AllocError>
    ensures ok { IfOk result (λ v. map (λ b. b.items) v.items ≡ map (λ b. b.places.items) blocks.items) }
{
    let mut lists = Vec::new(alloc);
    'lists: for block in blocks {
        lists.push(block.places)?;
    }
    Ok(lists)
}
