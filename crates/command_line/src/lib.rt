//! The command of the words of a command line, and what each command asks of its surroundings.
//!
//! The words go in, the program's name first; the command that they mean comes out, by `clap`'s own definitions of what a
//! command line may be. A number in them is its decimal digits alone, and in its range;
//! bits are the digits 0 and 1, and a list of qubits is different numbers with commas between them. Words that mean none are
//! refused, exactly. `specs/Demands.antt` says what each command asks of its surroundings: whether it reads the input, which device
//! it loads, what it writes.
#![tactic(auto)]

pub mod bits;
pub mod commands;
pub mod name;
pub mod qubits;
pub mod words;
