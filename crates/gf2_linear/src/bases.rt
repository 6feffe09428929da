//! Independent rows, kept so that a sum of them is told by elimination.

ghost use Rattle.std.specs.Prelude.{◌≡◌, ℕ, ◌+◌, ◌<◌, ◌≤◌, ◌^◌, length, IsTrue, IfSome, IfNone, IfOk, OnErr, false, true, List, [], ◌∷◌, ◌++◌, All, Contains, MatchBool};
ghost use Rattle.gf2_linear.specs.Rows.{combined, is_independent, is_sum};
ghost use Rattle.gf2_linear.specs.Bases.{IsEchelon, IsRemainder};
ghost use Rattle.gf2_linear.specs.Completions.{IsCompletion, IsPivotOf};

use crate::matrices::Matrix;
use crate::rows::Row;
use std::alloc::{AllocError, Global};
use std::marker::Model;

/// A sum of the rows of a basis, with a wire that no later entry has.
#[derive(Drop)]
struct Entry {
    row: Row,
    /// The places of the rows that sum to it.
    members: Row,
    pivot: u32,
}

/// What is left of a row, and the places of the rows of the basis that were added to it.
#[derive(Drop)]
struct Remainder {
    left: Row,
    members: Row,
}

/// Independent rows, in reduced form. Contracts see them as a list, in the order in which they came.
///
/// Each row that comes in is reduced by the entries before it, and the least wire left is its pivot.
#[derive(Drop)]
pub struct Basis {
    rows: Vec<Row>,
    entries: Vec<Entry>,
}

impl Model for Basis {
    ghost use Rattle.std.specs.Prelude.{List, ℕ};

    ghost Value = { List ℕ };

    ghost use Rattle.gf2_linear.specs.Bases.{IsBasis};

    ghost view = { λ a. a.rows.items };

    ghost invariant = { λ a. IsBasis a.rows.items a.entries.items };
}

/// What is left of a row once the pivots are taken out of it in turn.
fn reduce(entries: &[Entry], v: &Row) -> Remainder
    requires { IsEchelon entries.now }
    ensures { IsRemainder entries.now v.now result }
{
    let mut left = v.copy();
    let mut members = Row::empty();
    'entries: for entry in entries {
        if left.has(entry.pivot) {
            left.add(&entry.row);
            members.add(&entry.members);
        }
    }
    Remainder { left, members }
}

impl Basis {
    /// A basis without rows.
    pub fn new(alloc: Global) -> Basis
        ensures value { result ≡ [] }
    {
        Basis {
            rows: Vec::new(alloc),
            entries: Vec::new(alloc),
        }
    }

    /// Does nothing. Its contract says what holds of each basis.
    pub fn facts(&self)
        ensures rank_limit { length self.now ≤ 256 }
        ensures independent { IsTrue (is_independent self.now) }
    {
        let _rows = &self.rows;
    }

    /// The number of rows, which is their rank.
    pub fn len(&self) -> usize
        ensures count { result ≡ length self.now }
    {
        self.rows.len()
    }

    /// The pivot of a row: the least wire left when the pivots of the rows before it are taken out of it. A sum of
    /// rows that has none of the pivots has no wire.
    pub fn pivot(&self, place: usize) -> u32
        requires within { place < length self.now }
        ensures below { result < 256 }
        ensures pivot { IsPivotOf self.now place result }
    {
        self.entries[place].pivot
    }

    /// Whether a row is a sum of rows of the basis.
    pub fn spans(&self, v: &Row) -> bool
        ensures value { result ≡ is_sum self.now v.now }
    {
        reduce(&self.entries, v).left.is_empty()
    }

    /// The places of the rows that sum to `v`, as a set; None exactly where no rows do.
    pub fn express(&self, v: &Row) -> Option<Row>
        ensures some { IfSome result (λ s. (combined self.now s ≡ v.now) × (s < 2 ^ length self.now)) }
        ensures none { IfNone result (is_sum self.now v.now ≡ false) }
    {
        let remainder = reduce(&self.entries, v);
        if remainder.left.is_empty() {
            Some(remainder.members)
        } else {
            None
        }
    }

    /// Brings a row in where it is no sum of those that are there, and tells whether it did. After want of
    /// memory the basis is as it was.
    pub fn insert(&mut self, v: &Row) -> Result<bool, AllocError>
        ensures told { IfOk result (λ b. MatchBool b (is_sum self.old v.now ≡ false) (is_sum self.old v.now ≡ true)) }
        ensures ok { IfOk result (λ b. MatchBool b (self.new ≡ self.old ++ v.now ∷ []) (self.new ≡ self.old)) }
        ensures err { OnErr result (self.new ≡ self.old) }
    {
        self.facts();
        let slot = self.len() as u32;
        let remainder = reduce(&self.entries, v);
        match remainder.left.least() {
            None => Ok(false),
            Some(pivot) => {
                self.rows.reserve(1)?;
                self.entries.reserve(1)?;
                let mut members = remainder.members;
                members.flip(slot);
                self.rows.push(v.copy())?;
                self.entries.push(Entry {
                    row: remainder.left,
                    members,
                    pivot,
                })?;
                Ok(true)
            }
        }
    }

    /// A square matrix that has every row of the basis: each on its pivot, which is the least wire left when the
    /// pivots of the rows before it are taken out of it. Every other wire has its own row alone.
    pub fn complete(&self, alloc: Global, wires: u32) -> Result<Matrix, AllocError>
        requires wires_limit { wires ≤ 256 }
        requires below { All (λ r. r < 2 ^ wires) self.now }
        ensures wires { IfOk result (λ m. length m ≡ wires) }
        ensures independent { IfOk result (λ m. is_independent m ≡ true) }
        ensures each { IfOk result (λ m. All (Contains m) self.now) }
        ensures places { IfOk result (λ m. IsCompletion self.now wires m) }
    {
        let mut matrix = Matrix::identity(alloc, wires)?;
        'rows: for (place, row) in self.rows.iter().enumerate() {
            matrix.replace(self.entries[place].pivot, row);
        }
        Ok(matrix)
    }
}
