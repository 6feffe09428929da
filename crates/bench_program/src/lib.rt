//! The operations of generated benchmark programs, drawn from a start, as the command `bench` routes them.
//!
//! In go a start, a number of gates and a number of wires; out come the operations ([`Ops`]) of the program that is drawn from
//! that start, the same ones in each run. `specs/Program.antt` says which they are: one draw for the kind of a gate, one for its
//! wire, and one more for the target of a CNOT. The contract of `made` says that the operations are exactly these, that they are
//! as many as was asked for, and that each is fine: its wires are there, and a control isn't its target. Nothing is read.
//!
//! There must be a wire, no more wires than a circuit may have, and at most 20,000 gates. The only error is want of memory.
//! Time is linear in the gates.
#![tactic(auto)]

mod draws;
mod program;

pub use program::made;
