//! Expressions whose names are bound.

use angle_fraction::{Binary, Frac, Function};

/// An expression; a parameter is told by its index among the gate's parameters, from 0. Parentheses are gone.
#[cycle(formula)]
#[derive(Drop)]
pub enum Formula {
    Number(Frac),
    Pi,
    Param(usize),
    /// Unary minus.
    Neg(Box<Formula>),
    Call {
        function: Function,
        arg: Box<Formula>,
    },
    Binary {
        sign: Binary,
        sides: Box<FormulaSides>,
    },
}

/// The two parts of an expression with a sign between them.
#[cycle(formula)]
#[derive(Drop)]
pub struct FormulaSides {
    pub left: Formula,
    pub right: Formula,
}
