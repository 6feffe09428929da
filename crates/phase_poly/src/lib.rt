//! The phase polynomials of a circuit's layers, and the resynthesis of layers from these.
//!
//! In goes a circuit, which [`layers`] takes apart into gates without H between those with H. Gates without H are a
//! linear map of the wires, an added 1 on some of them, and a phase for each of some sums of wires: [`poly`] tells these. [`resynth`] builds other gates of them, block by block of independent sums, and
//! [`ResynthPass`] puts them in a layer's place where they have fewer CNOTs. The contracts say that what comes out is
//! the same up to the turn, with no more T gates and odd path parities, and bound the CNOTs by the least number of
//! blocks; what they rest on stands in [`laws`]. A list with an H, or with gates that aren't on the wires, is what
//! callers keep out; want of memory leaves nothing behind.
#![tactic(auto)]

mod building;
pub mod laws;
mod naming;
mod pass;
mod polynomial;
mod relinking;
mod resynthesis;
mod walk;

pub use building::Resynth;
pub use circuit_layers::{Layer, layers};
pub use pass::ResynthPass;
pub use polynomial::Poly;
pub use resynthesis::resynth;
pub use walk::poly;
