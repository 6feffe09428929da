//! Laws of distances and of device texts: each function's contract is one law. They take nothing and do nothing.

ghost use Rattle.std.specs.Prelude.{◌≡◌, ◌≢◌, ℕ, ◌+◌, ◌*◌, ◌<◌, ◌≤◌, ◌↔◌, ◌⊎◌, IsTrue, List, None};
ghost use Rattle.coupling_map.specs.Costs.{most_cost};
ghost use Rattle.coupling_map.specs.Coupling.{Coupling, IsCoupling, cost, dist};
ghost use Rattle.coupling_map.specs.Refusals.{IsDeviceFault};
ghost use Rattle.coupling_map.specs.Text.{graph, Says};
ghost use Rattle.coupling_map.specs.Walks.{is_near, IsDistance, IsHops};
ghost use Rattle.coupling_map.specs.declared.faults.DeviceFault.{DeviceFault as Fault};

/// Two qubits have one distance at most.
pub fn distance_is_one()
    ensures one { (es : List (ℕ × ℕ)) (w : ℕ → ℕ → ℕ) (a b j k : ℕ) → IsDistance es w a b j → IsDistance es w a b k → j ≡ k }
{}

/// The distance of two qubits is the number that `dist` computes.
pub fn distance_is_computed()
    ensures computed { (d : Coupling) (a b k : ℕ) → IsCoupling d → a < d.size → b < d.size → IsDistance d.edges (cost d) a b k → dist d a b ≡ k }
{}

/// On a device `dist` is the distance of every two qubits, and near qubits are different qubits of the device,
/// whose pair costs from 1 to the greatest cost, the same both ways.
pub fn distances_on_device()
    ensures exact { (d : Coupling) (a b : ℕ) → IsCoupling d → a < d.size → b < d.size → IsDistance d.edges (cost d) a b (dist d a b) }
    ensures short { (d : Coupling) (a b : ℕ) → IsCoupling d → a < d.size → b < d.size → dist d a b + most_cost ≤ d.size * most_cost }
    ensures symmetric { (d : Coupling) (a b : ℕ) → IsCoupling d → a < d.size → b < d.size → dist d a b ≡ dist d b a }
    ensures zero { (d : Coupling) (a b : ℕ) → IsCoupling d → a < d.size → b < d.size → (dist d a b ≡ 0) ↔ (a ≡ b) }
    ensures step { (d : Coupling) (a b c : ℕ) → IsCoupling d → c < d.size → IsTrue (is_near d.edges a b) → dist d a c ≤ cost d a b + dist d b c }
    ensures costs { (d : Coupling) (a b : ℕ) → IsCoupling d → (1 ≤ cost d a b) × (cost d a b ≤ most_cost) }
    ensures turned { (d : Coupling) (a b : ℕ) → cost d a b ≡ cost d b a }
    ensures near { (d : Coupling) (a b : ℕ) → IsCoupling d → IsTrue (is_near d.edges a b) → (a < d.size) × (b < d.size) × (a ≢ b) }
{}

/// On a device without costs `dist` is less than the number of qubits, and it is 1 exactly for near qubits.
pub fn distances_without_costs()
    ensures short { (d : Coupling) (a b : ℕ) → IsCoupling d → d.costs ≡ None → a < d.size → b < d.size → dist d a b < d.size }
    ensures one { (d : Coupling) (a b : ℕ) → IsCoupling d → d.costs ≡ None → a < d.size → b < d.size → (dist d a b ≡ 1) ↔ IsTrue (is_near d.edges a b) }
{}

/// On a device a number of near pairs leads from each qubit to each, less than the number of qubits.
pub fn hops_exist()
    ensures exist { (d : Coupling) (a b : ℕ) → IsCoupling d → a < d.size → b < d.size → (k : ℕ) × (k < d.size) × IsHops d.edges a b k }
{}

/// A text has one refusal at most, with its qubits.
pub fn refused_once()
    ensures once { (text : List ℕ) (a b : Fault) → IsDeviceFault text a → IsDeviceFault text b → a ≡ b }
{}

/// A text that describes a device has no refusal.
pub fn accepted_has_no_refusal()
    ensures no_refusal { (text : List ℕ) (d : Coupling) (fault : Fault) → Says text (graph d.size d.edges d.costs) → IsCoupling d → IsDeviceFault text fault → ⊥ }
{}

/// A text describes a device or has a refusal.
pub fn described_or_refused()
    ensures either { (text : List ℕ) → ((d : Coupling) × Says text (graph d.size d.edges d.costs) × IsCoupling d) ⊎ ((fault : Fault) × IsDeviceFault text fault) }
{}
