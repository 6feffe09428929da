//! The tokens of a program text in OpenQASM 2.0, with their kinds and offsets, and the values of its numbers.
//!
//! In goes a text, out come the kinds and places of its tokens; white space and comments are left out. The contract says
//! that the text is lexemes one behind the other, each the longest at its place, and that these are the tokens among
//! them; or that the text is refused at its first fault, which is told: a byte at which nothing begins, or a number whose
//! numerator or denominator stays above 2^62 when common factors are cancelled. A text has one answer. A number's value is
//! exact however long it is written. Time is linear in the text.
#![tactic(auto)]

use thiserror::Error;

mod laws;
mod lexeme;
mod number;
mod plain;
mod reading;
mod step;

pub use laws::{
    accepted_has_no_fault, lexed_by_lexemes, lexed_exactly, lexed_once, lexed_or_refused,
    names_are_ascii, refused_once, tokens_are_lexemes,
};
pub use reading::{lex, value};

/// What a token is.
#[derive(Clone, Copy, Debug, PartialEq, Eq)]
pub enum Kind {
    /// A name, a reserved word, or one of `OPENQASM`, `U` and `CX`.
    Word,
    /// A whole number.
    Whole,
    /// A number with a point.
    Real,
    /// A text between quotes, the quotes included.
    Text,
    /// A mark of one or two bytes.
    Sign,
}

/// A token of a text: what stands there between the offsets `from` and `to`.
#[derive(Clone, Copy, Debug, PartialEq, Eq)]
pub struct Token {
    /// What it is.
    pub kind: Kind,
    /// The place of its first byte.
    pub from: u32,
    /// The place behind its last byte.
    pub to: u32,
}

/// Why a text has no list of tokens. A place is an offset in bytes.
#[derive(Clone, Copy, Debug, PartialEq, Eq, Error)]
pub enum LexFault {
    /// At this place, the first such, no token, white space or comment begins.
    #[error("no token begins at byte {place}")]
    BadByte { place: u32 },
    /// Nothing before this place is at fault, and the number here is out of range: its numerator or denominator stays above
    /// 2^62 when common factors are cancelled.
    #[error("the number at byte {place} is out of range")]
    Number { place: u32 },
    /// There is no memory for the tokens.
    #[error("out of memory")]
    NoMemory,
}
