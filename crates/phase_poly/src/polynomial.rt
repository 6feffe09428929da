//! The phase polynomial of a list without H.

ghost use Rattle.std.specs.Prelude.{◌≡◌, ◌<◌, All};

use gf2_linear::{Matrix, Row};
use std::marker::Model;

/// What a list of CNOT, X and P does: the wires' map, the added 1s, and a phase for each of some sums of wires.
#[derive(Drop)]
pub struct Poly {
    map: Matrix,
    flips: Row,
    constant: u8,
    terms: Vec<(Row, u8)>,
}

impl Model for Poly {
    ghost use Rattle.std.specs.Prelude.{◌<◌, All};
    ghost use Rattle.phase_poly.specs.Polys.{PolyBody};

    ghost Value = { PolyBody };

    ghost view = { λ a. record { map = a.map; flips = a.flips; constant = a.constant; terms = a.terms.items } };

    ghost invariant = { λ a. (a.constant < 8) × All (λ e. e.1 < 8) a.terms.items };
}

impl Poly {
    pub(crate) fn new(map: Matrix, flips: Row, constant: u8, terms: Vec<(Row, u8)>) -> Poly
        requires constant { constant < 8 }
        requires terms { All (λ e. e.1 < 8) terms.items }
        ensures value { result ≡ record { map = map; flips = flips; constant = constant; terms = terms.items } }
    {
        Poly {
            map,
            flips,
            constant,
            terms,
        }
    }

    /// Row i is the set of the wires whose sum stands on wire i at the end.
    pub fn map(&self) -> &Matrix
        ensures value { result.now ≡ self.now.map }
    {
        &self.map
    }

    /// The wires with an added 1 at the end.
    pub fn flips(&self) -> &Row
        ensures value { result.now ≡ self.now.flips }
    {
        &self.flips
    }

    /// The turn where every wire is 0, in units of pi/4.
    pub fn constant(&self) -> u8
        ensures same { result ≡ self.now.constant }
        ensures below { result < 8 }
    {
        self.constant
    }

    /// The sums of wires that turn, each with its turn in units of pi/4, in order of first appearance.
    pub fn terms(&self) -> &[(Row, u8)]
        ensures same { result.now ≡ self.now.terms }
        ensures below { All (λ e. e.1 < 8) self.now.terms }
    {
        self.terms.as_slice()
    }
}
