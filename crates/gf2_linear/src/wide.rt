//! Rows on wires and spares. The wires carry independent rows, and a spare starts without a wire; so more rows stand
//! on all of them than their rank, which stays the number of wires.

ghost use Rattle.std.specs.Prelude.{◌≡◌, ◌+◌, ◌-◌, ◌<◌, ◌≤◌, ◌^◌, ◌++◌, All, IfOk, length, replicate, true};
ghost use Rattle.gf2_linear.specs.Rows.{is_independent, rank};
ghost use Rattle.gf2_linear.specs.Sifts.{IsSifted};
ghost use Rattle.gf2_linear.specs.Wide.{StandAmong, below};

use crate::bases::Basis;
use crate::matrices::Matrix;
use crate::rows::Row;
use std::alloc::{AllocError, Global};

/// A basis of some rows, and the rows that are sums of it.
#[derive(Drop)]
struct Sifted {
    basis: Basis,
    left: Vec<Row>,
}

/// Puts each row that is no sum of those before it into a basis, and keeps the others, in order.
fn sift(alloc: Global, rows: &[Row]) -> Result<Sifted, AllocError>
    ensures { IfOk result (λ s. IsSifted rows.now s.basis s.left.items) }
{
    let mut basis = Basis::new(alloc);
    let mut left = Vec::new(alloc);
    'rows: for row in rows {
        if !basis.insert(row)? {
            left.push(row.copy())?;
        }
    }
    basis.facts();
    Ok(Sifted { basis, left })
}

/// As many rows as there are wires and spares, of rank `wires`, among which each of the given rows stands at least as
/// often as it is given. A basis of these, chosen from the first on, stands on the wires as `complete` places it; each
/// other row stands on a spare, in order, and the spares that are left have no wire.
pub fn complete_wide(
    alloc: Global,
    rows: &[Row],
    wires: u32,
    spares: u32,
) -> Result<Vec<Row>, AllocError>
    requires wires_limit { wires ≤ 256 }
    requires below { All (λ r. r < 2 ^ wires) rows.now }
    requires room { length rows.now ≤ rank rows.now + spares }
    ensures length { IfOk result (λ w. length w.items ≡ wires + spares) }
    ensures below { IfOk result (λ w. All (λ r. r < 2 ^ wires) w.items) }
    ensures rank { IfOk result (λ w. rank w.items ≡ wires) }
    ensures each { IfOk result (λ w. StandAmong w.items rows.now) }
{
    let Sifted { basis, mut left } = sift(alloc, rows)?;
    let matrix = basis.complete(alloc, wires)?;
    matrix.facts();
    let mut most = matrix.into_rows();
    most.append(&mut left)?;
    let count = wires as usize + spares as usize;
    let wide = padded(most, count)?;
    Ok(wide)
}

/// The rows, and behind them as many without wires as make up the count.
fn padded(rows: Vec<Row>, count: usize) -> Result<Vec<Row>, AllocError>
    requires { length rows.items ≤ count }
    ensures { IfOk result (λ w. w.items ≡ rows.items ++ replicate (count - length rows.items) 0) }
{
    let mut wide = rows;
    'spares: for _ in wide.len()..count {
        wide.push(Row::empty())?;
    }
    Ok(wide)
}

/// A matrix that has the rows on its first wires, and one wire more for each row that is a sum of those before it. So
/// additions that bring it to another such matrix bring the rows to those of the other.
pub fn widened(alloc: Global, rows: &[Row], wires: u32) -> Result<Matrix, AllocError>
    requires rows_limit { length rows.now ≤ 256 }
    requires below { All (λ r. r < 2 ^ wires) rows.now }
    requires rank { rank rows.now ≡ wires }
    ensures length { IfOk result (λ m. length m ≡ length rows.now) }
    ensures independent { IfOk result (λ m. is_independent m ≡ true) }
    ensures below { IfOk result (λ m. below wires m ≡ rows.now) }
{
    let mut basis = Basis::new(alloc);
    let mut wide = Vec::new(alloc);
    let mut extra = wires;
    'rows: for row in rows {
        let mut more = row.copy();
        if !basis.insert(row)? {
            more.flip(extra);
            extra += 1;
        }
        wide.push(more)?;
    }
    basis.facts();
    Ok(Matrix::from_rows(wide))
}
