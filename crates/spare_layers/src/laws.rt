//! The laws of spare wires that start at zero: each function's contract is one law. They take nothing and do nothing.

ghost use Rattle.std.specs.Prelude.{◌≡◌, ℕ, ◌+◌, ◌%◌, ◌<◌, ◌≤◌, ◌++◌, List};
ghost use Rattle.circuit_list.specs.declared.Gate.{Gate};
ghost use Rattle.circuit_list.specs.Gates.{ops};
ghost use Rattle.unitary_model.specs.declared.Op.{Op};
ghost use Rattle.unitary_model.specs.Acts.{Turns};
ghost use Rattle.unitary_model.specs.Operations.{WiresBelow, t_count};
ghost use Rattle.unitary_model.specs.SameUpTo.{SameUpTo};
ghost use Rattle.phase_poly.specs.Polys.{AreDihedral};
ghost use Rattle.phase_poly.specs.Replaced.{AreFine};
ghost use Rattle.spare_layers.specs.Spared.{Cleanly, IsSpared};
ghost use Rattle.spare_layers.specs.SparedLayers.{IsSparedCircuit, SameSpared};

/// What holds where the spares are at zero: lists one behind the other, the first of which is on the wires alone, add up their
/// powers, and it says that the spares end at zero, with the amplitudes of the list on the wires.
pub fn clean_lists()
    ensures turns { (n k : ℕ) (A B : List Op) → Turns k A B → Cleanly n k A B }
    ensures joined { (n j k : ℕ) (A B C D : List Op) → WiresBelow n A → Cleanly n j A B → Cleanly n k C D →
        Cleanly n (j + k) (A ++ C) (B ++ D) }
    ensures spared { (S R : List Op) (n m k : ℕ) → k < 8 → WiresBelow n S → WiresBelow (n + m) S → WiresBelow (n + m) R →
        Cleanly n k S R → IsSpared S n R m k }
{}

/// Spares for a list that is another up to a power of w are spares for the other: the powers add up.
pub fn spared_chain()
    ensures chain { (S Q R : List Op) (n m i j : ℕ) → i < 8 → SameUpTo i n S Q → IsSpared Q n R m j →
        IsSpared S n R m ((i + j) % 8) }
{}

/// Two lists without H that have the same map, flips and coefficients on wires and spares, and constants that differ by `t`, are
/// the same up to the turn `t` where the spares are at zero.
pub fn spared_polynomial()
    ensures turns { (n m t : ℕ) (A B : List Gate) → AreDihedral (n + m) A → AreDihedral (n + m) B → SameSpared n m t A B →
        Cleanly n t (ops A) (ops B) }
{}

/// A circuit whose layers are kept or written anew with spares has the amplitudes of the circuit on the wires where the spares
/// start and end at zero, up to the turn; where they start at zero and don't end there, it has none; and it has no more T gates.
pub fn spared_circuit()
    ensures entries { (n m t : ℕ) (gs new : List Gate) → AreFine n gs → IsSparedCircuit n m gs new t →
        IsSpared (ops gs) n (ops new) m t }
    ensures fine { (n m t : ℕ) (gs new : List Gate) → AreFine n gs → IsSparedCircuit n m gs new t → AreFine (n + m) new }
    ensures t_gates { (n m t : ℕ) (gs new : List Gate) → IsSparedCircuit n m gs new t → t_count (ops new) ≤ t_count (ops gs) }
{}
