//! What holds of lists of rows: rank, independence, sums and completion.

ghost use Rattle.std.specs.Prelude.{◌≡◌, ◌<◌, ◌≤◌, ◌^◌, All, Contains, IfOk, IfSome, IfNone, IsTrue, false, true, length};
ghost use Rattle.gf2_linear.specs.Rows.{is_independent, is_sum, IsSumAt, places_in, rank};
ghost use Rattle.gf2_linear.specs.Completions.{IsCompletion};

use crate::bases::Basis;
use crate::matrices::Matrix;
use crate::rows::Row;
use std::alloc::{AllocError, Global};

/// The rank of the rows: how many rows an independent choice of them has at most.
pub fn rank(alloc: Global, rows: &[Row]) -> Result<usize, AllocError>
    ensures ok { IfOk result (λ k. k ≡ rank rows.now) }
{
    let mut basis = Basis::new(alloc);
    'rows: for row in rows {
        let _is_new = basis.insert(row)?;
    }
    basis.facts();
    Ok(basis.len())
}

/// Whether no nonempty choice of the rows sums to the row without wires.
pub fn is_independent(alloc: Global, rows: &[Row]) -> Result<bool, AllocError>
    ensures ok { IfOk result (λ b. b ≡ is_independent rows.now) }
{
    let mut basis = Basis::new(alloc);
    'rows: for row in rows {
        if !basis.insert(row)? {
            return Ok(false);
        }
    }
    basis.facts();
    Ok(true)
}

/// A basis of independent rows.
pub fn basis_of(alloc: Global, rows: &[Row]) -> Result<Basis, AllocError>
    requires independent { IsTrue (is_independent rows.now) }
    ensures ok { IfOk result (λ b. b ≡ rows.now) }
{
    let mut basis = Basis::new(alloc);
    'rows: for row in rows {
        let _is_new = basis.insert(row)?;
    }
    Ok(basis)
}

/// The increasing places of the independent rows that sum to `v`; None exactly where no rows do.
pub fn express(alloc: Global, rows: &[Row], v: &Row) -> Result<Option<Vec<usize>>, AllocError>
    requires independent { IsTrue (is_independent rows.now) }
    ensures some { IfOk result (λ o. IfSome o (λ p. IsSumAt rows.now v.now p.items)) }
    ensures none { IfOk result (λ o. IfNone o (is_sum rows.now v.now ≡ false)) }
{
    let basis = basis_of(alloc, rows)?;
    match basis.express(v) {
        None => Ok(None),
        Some(set) => {
            basis.facts();
            let count = basis.len();
            let places = places_in(alloc, &set, count as u32)?;
            Ok(Some(places))
        }
    }
}

/// The numbers below `count` that are in a set, ascending.
pub fn places_in(alloc: Global, set: &Row, count: u32) -> Result<Vec<usize>, AllocError>
    requires limit { count ≤ 256 }
    ensures ok { IfOk result (λ p. p.items ≡ places_in count set.now) }
{
    let mut places = Vec::new(alloc);
    'places: for place in 0..count {
        if set.has(place) {
            places.push(place as usize)?;
        }
    }
    Ok(places)
}

/// A square matrix over `wires` wires that has each of the independent rows, as `Basis::complete` places them.
pub fn complete(alloc: Global, rows: &[Row], wires: u32) -> Result<Matrix, AllocError>
    requires wires_limit { wires ≤ 256 }
    requires below { All (λ r. r < 2 ^ wires) rows.now }
    requires independent { IsTrue (is_independent rows.now) }
    ensures wires { IfOk result (λ m. length m ≡ wires) }
    ensures independent { IfOk result (λ m. is_independent m ≡ true) }
    ensures each { IfOk result (λ m. All (Contains m) rows.now) }
    ensures places { IfOk result (λ m. IsCompletion rows.now wires m) }
{
    let basis = basis_of(alloc, rows)?;
    let matrix = basis.complete(alloc, wires)?;
    Ok(matrix)
}
