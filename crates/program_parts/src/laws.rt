//! What holds of parts, as functions whose contracts are the laws. They take nothing and do nothing.

ghost use Rattle.std.specs.Prelude.{◌≡◌, ℕ, ◌+◌, ◌*◌, ◌%◌, ◌≤◌, List, [], ◌∷◌, ◌++◌, length, map, sum_by};
ghost use Rattle.std.specs.List.{AllByRecursion};
ghost use Rattle.unitary_model.specs.Operations.{cx_count};
ghost use Rattle.unitary_model.specs.Realises.{Realises};
ghost use Rattle.program_parts.specs.Cuts.{chopped, whole};
ghost use Rattle.program_parts.specs.Parts.{AreRealised, Part, ends, powers, sources, targets};

/// Parts that are realised one after the other are realised as a whole: the powers add up. One part is such a list.
pub fn parts_are_realised()
    ensures whole { (n size : ℕ) (parts : List Part) (first : List ℕ) → (parts ≡ [] → ⊥) → AreRealised n size first parts →
        Realises (sources parts) n (targets parts) size first (ends first parts) (powers parts % 8) }
    ensures one { (n size : ℕ) (p : Part) (first : List ℕ) → Realises p.source n p.target size first p.last p.power →
        AreRealised n size first (p ∷ []) }
{}

/// Numbers of CNOTs and of swaps add up.
pub fn counts_add_up()
    ensures cx { (parts : List Part) → AllByRecursion (λ p. cx_count p.target ≤ cx_count p.source + 3 * p.swaps) parts →
        cx_count (targets parts) ≤ cx_count (sources parts) + 3 * sum_by (λ p. p.swaps) parts }
{}

/// A whole is cut back into its parts by their lengths, and what is cut by lengths that add up to its own is whole again.
pub fn cuts_and_wholes<T>()
    ensures chopped { (parts : List (List T)) → chopped (map length parts) (whole parts) ≡ parts }
    ensures whole { (ns : List ℕ) (xs : List T) → sum_by (λ n. n) ns ≡ length xs → whole (chopped ns xs) ≡ xs }
    ensures joined { (xss yss : List (List T)) → whole (xss ++ yss) ≡ whole xss ++ whole yss }
    ensures length { (parts : List (List T)) → length (whole parts) ≡ sum_by length parts }
{}
