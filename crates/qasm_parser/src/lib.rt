//! The grammar of programs in OpenQASM 2.0: the tree that the tokens of a text spell.
//!
//! In go a text and its tokens, out comes the tree that they spell. The contract says that all tokens of the text are
//! those of this tree, that its version is 2 and that no expression is deeper than 64; a text with its tokens spells at
//! most one tree. Else the contract says why: nothing is spelt, the version is another, or an expression is too deep,
//! in this order. An expression is told valid, and its depth found, from left to right with a stack on the heap, so
//! that no nesting of a text needs a deep stack. Time is linear in the text.
#![tactic(auto)]

mod action;
mod apply;
mod cursor;
mod expression;
mod frames;
mod grouping;
mod growth;
mod laws;
mod lists;
mod name;
mod part;
mod program;
mod statement;
mod stop;
mod symbols;
mod tree;

pub use angle_fraction::{Binary, Function};
pub use grouping::{is_left_first, is_minus_first};
pub use laws::{
    accepted_has_no_fault, declares_names, few_statements, parsed_or_refused, refused_once,
    spelt_once,
};
pub use name::Name;
pub use program::parse;
use thiserror::Error;
pub use tree::{Apply, Arg, Expr, GateDef, Program, Sides, Stmt};

/// Why the tokens of a text are refused. A place is an offset in bytes.
#[derive(Clone, Copy, Debug, PartialEq, Eq, Error)]
pub enum ParseFault {
    /// The tokens spell no program. The place is that of the first token that fits nothing, or the text's length.
    #[error("no program is spelt from byte {place} on")]
    Syntax { place: u32 },
    /// They spell a program, and the number at this place isn't 2.
    #[error("the version at byte {place} is not 2")]
    Version { place: u32 },
    /// They spell a program of version 2, and the expression at this place, the first such, is deeper than 64.
    #[error("the expression at byte {place} is too deep")]
    Depth { place: u32 },
    /// There is no memory for the tree.
    #[error("out of memory")]
    NoMemory,
}
