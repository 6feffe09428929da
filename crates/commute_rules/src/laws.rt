//! The laws of the two tables: each function's contract is one law, for gates of any list on n wires. They take nothing and
//! do nothing.

ghost use Rattle.std.specs.Prelude.{◌≡◌, ℕ, ◌++◌, ◌∷◌, List, All, true};
ghost use Rattle.circuit_list.specs.declared.Gate.{Gate};
ghost use Rattle.circuit_list.specs.declared.Gate.TheVariants.{P};
ghost use Rattle.circuit_list.specs.Gates.{IsFine, ops};
ghost use Rattle.commute_rules.specs.declared.Cancel.TheVariants.{Both, Merge};
ghost use Rattle.commute_rules.specs.Cancels.{cancel_of, with_phase};
ghost use Rattle.commute_rules.specs.Commutes.{commutes};
ghost use Rattle.unitary_model.specs.SameUpTo.{SameUpTo};

use circuit_list::laws::fine_below;

/// Gates that commute may be exchanged, whatever stands before and behind them: each amplitude stays.
pub fn commuting_exchanged()
    ensures same { (n : ℕ) (before after : List Gate) (g h : Gate) → All (IsFine n) before → All (IsFine n) after →
        IsFine n g → IsFine n h → commutes g h ≡ true →
        SameUpTo 0 n (ops (before ++ (g ∷ h ∷ after))) (ops (before ++ (h ∷ g ∷ after))) }
{
    fine_below();
}

/// Gates that cancel may go, whatever stands before and behind them: each amplitude is turned by the told power of w.
pub fn cancelling_gone()
    ensures same { (n turn : ℕ) (before after : List Gate) (g h : Gate) → All (IsFine n) before → All (IsFine n) after →
        IsFine n g → IsFine n h → cancel_of g h ≡ Both turn →
        SameUpTo turn n (ops (before ++ (g ∷ h ∷ after))) (ops (before ++ after)) }
{
    fine_below();
}

/// Phases that merge may be one phase, whatever stands before and behind them: each amplitude stays.
pub fn phases_merged()
    ensures same { (n k : ℕ) (before after : List Gate) (g h : Gate) → All (IsFine n) before → All (IsFine n) after →
        IsFine n g → IsFine n h → cancel_of g h ≡ Merge k →
        SameUpTo 0 n (ops (before ++ (g ∷ h ∷ after))) (ops (before ++ (with_phase k g ∷ after))) }
    ensures phases { (k : ℕ) (g h : Gate) → cancel_of g h ≡ Merge k → (i j q : ℕ) × ((g ≡ P i q) × (h ≡ P j q)) }
{
    fine_below();
}
