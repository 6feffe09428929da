//! Layers of a circuit written anew with spare wires that start at zero.
//!
//! In goes a circuit, and a number of spare wires that are to stand behind its own; out comes a circuit on all of them. A
//! layer whose sums stand on wires and spares in fewer blocks than on the wires alone is written anew, block by block, by
//! [`spared_layer`]; the other layers stay as they are ([`with_spares`]). The contracts say so layer by layer, with the
//! least numbers of blocks; what it means stands in [`laws`]: where the spares start at zero, they end at zero, and the
//! circuit does the same on the wires, up to the turn, with no more T gates. Nothing is promised where a spare starts at one,
//! nor on the number of CNOTs. Callers keep wires and spares below the limit of a circuit; want of memory leaves nothing
//! behind.
#![tactic(auto)]

pub mod laws;
mod layer;
mod pass;
mod weaving;

pub use layer::spared_layer;
pub use pass::with_spares;
