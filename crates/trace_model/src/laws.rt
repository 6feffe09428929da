//! The laws of traces: each function's contract is one law. They take nothing and do nothing.

ghost use Rattle.std.specs.Prelude.{◌≡◌, ℕ, All, List};
ghost use Rattle.gate_expand.specs.Expansion.{IsFineOp};
ghost use Rattle.trace_model.specs.Proves.{Claim, Proves, StopsAt};
ghost use Rattle.unitary_model.specs.Realises.{Realises};

use gate_expand::laws::expansion_kept;

/// What a trace proves is so: the target realises the source between the placements of the trace, up to its power of w.
pub fn traces_are_sound()
    ensures sound { (e : Claim) (trace p q : List ℕ) (j : ℕ) → All (IsFineOp e.wires) e.source → All (IsFineOp e.qubits) e.target →
        Proves e trace p q j → Realises e.source e.wires e.target e.qubits p q j }
{
    expansion_kept();
}

/// A trace that stops at a line proves nothing and stops at no other, and a trace proves one thing at most.
pub fn traces_are_exact()
    ensures not_both { (e : Claim) (trace : List ℕ) (n : ℕ) (p q : List ℕ) (j : ℕ) → StopsAt e trace n → Proves e trace p q j → ⊥ }
    ensures one_line { (e : Claim) (trace : List ℕ) (m n : ℕ) → StopsAt e trace m → StopsAt e trace n → m ≡ n }
    ensures one_proof { (e : Claim) (trace p q r s : List ℕ) (j k : ℕ) → Proves e trace p q j → Proves e trace r s k → (p ≡ r) × ((q ≡ s) × (j ≡ k)) }
{}
