//! The laws of circuits: each function's contract is one law. They take nothing and do nothing.

ghost use Rattle.std.specs.Prelude.{◌≡◌, ℕ, ◌<◌, ◌++◌, All, List, length};
ghost use Rattle.circuit_list.specs.Body.{Body};
ghost use Rattle.circuit_list.specs.declared.Gate.{Gate};
ghost use Rattle.circuit_list.specs.Gates.{IsFine, most_wires, ops};
ghost use Rattle.circuit_list.specs.Slots.{Ascend, IsLive, place_of};
ghost use Rattle.unitary_model.specs.Operations.{IsPlain, WiresBelow};

use crate::MOST_WIRES;

/// The constant of the code is the limit of the definitions.
pub fn wire_limit()
    ensures limit { MOST_WIRES ≡ most_wires }
{}

/// Of two gates the one with the lower slot stands first. What it asks of the slots, [`crate::Circuit::wires`] tells.
pub fn slots_in_order()
    ensures places { (b : Body) → Ascend b.slots → length b.slots ≡ length b.gates → (s t : ℕ) → IsLive b s → IsLive b t →
        s < t → place_of s b.slots < place_of t b.slots }
    ensures slots { (b : Body) → Ascend b.slots → length b.slots ≡ length b.gates → (s t : ℕ) → IsLive b s → IsLive b t →
        place_of s b.slots < place_of t b.slots → s < t }
{}

/// The operations of joined lists are those of the one and then those of the other.
pub fn ops_joined()
    ensures joined { (gs hs : List Gate) → ops (gs ++ hs) ≡ ops gs ++ ops hs }
{}

/// Gates that may stand in a circuit of n wires are operations on wires below n.
pub fn fine_below()
    ensures below { (n : ℕ) (gs : List Gate) → All (IsFine n) gs → WiresBelow n (ops gs) }
{}

/// Gates that may stand in a circuit, on whatever wires, are plain operations: H, X, phases from 1 to 7 and CNOTs.
pub fn fine_plain()
    ensures plain { (n : ℕ) (gs : List Gate) → All (IsFine n) gs → All IsPlain (ops gs) }
{}
