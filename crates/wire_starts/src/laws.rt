//! The law of starts. It takes nothing and does nothing: its contract is the law.

ghost use Rattle.std.specs.Prelude.{◌≡◌, ℕ, List};
ghost use Rattle.coupling_map.specs.Coupling.{Coupling, IsCoupling};
ghost use Rattle.wire_starts.specs.Starts.{IsTryStart};

use coupling_map::laws::{distance_is_one, hops_exist};

/// A device has one start of each number at most.
pub fn start_is_one()
    ensures one { (d : Coupling) (k : ℕ) (p q : List ℕ) → IsCoupling d → IsTryStart d k p → IsTryStart d k q → p ≡ q }
{
    distance_is_one();
    hops_exist();
}
