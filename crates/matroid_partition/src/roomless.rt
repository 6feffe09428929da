//! A quick look at whether the blocks are known to have no room for a row.
//!
//! No clause rests on it: a wrong answer would make a search longer, and the blocks other ones that are as few.

ghost use Rattle.std.specs.Prelude.{◌<◌, IfSome, length};

use gf2_linear::{Basis, Row};
use std::alloc::{AllocError, Global};

/// The sums of some rows that no block has room for, as sets of wires: each of these has an even number of wires in
/// common with every such sum, and an odd number, for one of them, with any other sum of the rows that there are.
#[derive(Drop)]
pub struct Roomless {
    masks: Vec<Row>,
}

/// No rows so far, out of the sums of `all`, which their pivots tell apart.
pub fn none_roomless(alloc: Global, all: &Basis) -> Result<Roomless, AllocError> {
    let mut masks = Vec::new(alloc);
    for place in 0..all.len() {
        masks.push(Row::unit(all.pivot(place)))?;
    }
    Ok(Roomless { masks })
}

impl Roomless {
    /// Whether a row is a sum of those that came in.
    pub fn has(&self, row: &Row) -> bool {
        self.first_odd(row).is_none()
    }

    /// Brings in a row that no block has room for.
    pub fn add(&mut self, row: &Row) {
        if let Some(first) = self.first_odd(row) {
            let odd = self.masks.swap_remove(first);
            for k in 0..self.masks.len() {
                if self.masks[k].is_odd_on(row) {
                    self.masks[k].add(&odd);
                }
            }
        }
    }

    /// The first of the sets of wires that has an odd number of wires in common with a row.
    fn first_odd(&self, row: &Row) -> Option<usize>
        ensures { IfSome result (λ k. k < length self.now.masks.items) }
    {
        'masks: for (k, mask) in self.masks.iter().enumerate() {
            if mask.is_odd_on(row) {
                return Some(k);
            }
        }
        None
    }
}
