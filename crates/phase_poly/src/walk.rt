//! From a list to its polynomial, gate by gate.

ghost use Rattle.std.specs.Prelude.{◌≡◌, ◌≤◌, ◌<◌, ◌++◌, ◌∷◌, [], All, IfOk, OnErr, OnOk, filter, length, not, ◌==◌};
ghost use Rattle.circuit_list.specs.Gates.{most_wires};
ghost use Rattle.phase_poly.specs.Polys.{AreDihedral, IsDihedral, first_poly, poly_of, polyed, with_term};

use crate::polynomial::Poly;
use circuit_list::Gate;
use gf2_linear::{Matrix, Row};
use indexmap::IndexMap;
use std::alloc::{AllocError, Global};
use std::marker::Model;

/// The polynomial of a list of CNOT, X and P on so many wires: its linear map, its flips, its constant and the sums
/// whose coefficient isn't 0, in order of first appearance (cf. Amy, Maslov and Mosca 2014, section 3).
pub fn poly(alloc: Global, wires: u32, list: &[Gate]) -> Result<Poly, AllocError>
    requires wires_limit { wires ≤ most_wires }
    requires dihedral { AreDihedral wires list.now }
    ensures ok { IfOk result (λ p. p ≡ poly_of wires list.now) }
{
    let mut walk = Walk::new(alloc, wires)?;
    'gates: for g in list {
        walk.pass(*g)?;
    }
    let sum = walk.finish(alloc)?;
    Ok(sum)
}

/// The polynomial of the gates so far, with the sums whose coefficient is 0.
#[derive(Drop)]
struct Walk {
    map: Matrix,
    flips: Row,
    constant: u8,
    terms: IndexMap<Row, u8>,
}

impl Model for Walk {
    ghost use Rattle.std.specs.Prelude.{◌<◌, All};
    ghost use Rattle.phase_poly.specs.Polys.{PolyBody};

    ghost Value = { PolyBody };

    ghost view = { λ a. record { map = a.map; flips = a.flips; constant = a.constant; terms = a.terms.entries } };

    ghost invariant = { λ a. (a.constant < 8) × All (λ e. e.1 < 8) a.terms.entries };
}

impl Walk {
    fn new(alloc: Global, wires: u32) -> Result<Walk, AllocError>
        requires { wires ≤ most_wires }
        ensures { IfOk result (λ p. p ≡ first_poly wires) }
    {
        Ok(Walk {
            map: Matrix::identity(alloc, wires)?,
            flips: Row::empty(),
            constant: 0,
            terms: IndexMap::new(alloc),
        })
    }

    /// Puts a gate behind the list.
    fn pass(&mut self, g: Gate) -> Result<(), AllocError>
        requires wires_limit { length self.old.map ≤ most_wires }
        requires dihedral { IsDihedral (length self.old.map) g }
        ensures { OnOk result (self.new ≡ polyed g self.old) }
    {
        self.map.facts();
        match g {
            Gate::H { q: _ } => {}
            Gate::X { q } => {
                self.flips.flip(q);
                self.constant = (self.constant + 2) % 8;
            }
            Gate::P { k, q } => {
                let row = self.map.row(q).copy();
                if self.flips.has(q) {
                    self.constant = (self.constant + k) % 8;
                    add_term(&mut self.terms, row, 8 - k)?;
                } else {
                    add_term(&mut self.terms, row, k)?;
                }
            }
            Gate::Cx { c, t } => {
                self.map.add(c, t);
                if self.flips.has(c) {
                    self.flips.flip(t);
                }
            }
        }
        Ok(())
    }

    /// The polynomial without the terms whose coefficient is 0.
    fn finish(self, alloc: Global) -> Result<Poly, AllocError>
        ensures { IfOk result (λ p. p ≡ record self { terms = filter (λ e. not (e.1 == 0)) self.terms }) }
    {
        let terms = nonzero(alloc, &self.terms)?;
        let Walk {
            map,
            flips,
            constant,
            terms: _,
        } = self;
        Ok(Poly::new(map, flips, constant, terms))
    }
}

/// Adds to the coefficient of a sum, and puts a sum that is new behind the others.
fn add_term(terms: &mut IndexMap<Row, u8>, row: Row, k: u8) -> Result<(), AllocError>
    requires below { All (λ e. e.1 < 8) terms.old.entries }
    requires k { k < 8 }
    ensures terms { OnOk result (terms.new.entries ≡ with_term row k terms.old.entries) }
    ensures below { All (λ e. e.1 < 8) terms.new.entries }
    ensures err { OnErr result (terms.new.entries ≡ terms.old.entries) }
{
    let had = terms.get(&row).copied().unwrap_or(0);
    terms.insert(row, (had % 8 + k) % 8)?;
    Ok(())
}

/// The terms whose coefficient isn't 0, in order.
fn nonzero(alloc: Global, terms: &IndexMap<Row, u8>) -> Result<Vec<(Row, u8)>, AllocError>
    ensures { IfOk result (λ v. v.items ≡ filter (λ e. not (e.1 == 0)) terms.now.entries) }
{
    let mut kept = Vec::new(alloc);
    'terms: for i in 0..terms.len() {
        let (row, k) = terms.get_index(i).unwrap();
        keep(&mut kept, row, *k)?;
    }
    Ok(kept)
}

/// Puts a term behind the others where its coefficient isn't 0.
fn keep(kept: &mut Vec<(Row, u8)>, row: &Row, k: u8) -> Result<(), AllocError>
    ensures { OnOk result (kept.new.items ≡ kept.old.items ++ filter (λ e. not (e.1 == 0)) ((row.now, k) ∷ [])) }
{
    if k == 0 {
        return Ok(());
    }
    kept.push((row.copy(), k))?;
    Ok(())
}
