//! The laws of the model: each function's contract is one law, for every list of operations. They
//! take nothing and do nothing.

ghost use Rattle.std.specs.Prelude.{◌≡◌, ℕ, ◌+◌, ◌%◌, ◌<◌, ◌≤◌, List, Bool, ◌++◌, length};
ghost use Rattle.unitary_model.specs.declared.Op.{Op};
ghost use Rattle.unitary_model.specs.Ring.{mul};
ghost use Rattle.unitary_model.specs.Operations.{t_count, WiresBelow};
ghost use Rattle.unitary_model.specs.Amplitude.{amplitude};
ghost use Rattle.unitary_model.specs.Sums.{sum_over, all_bits};
ghost use Rattle.unitary_model.specs.OddPaths.{odd_paths};
ghost use Rattle.unitary_model.specs.Acts.{Turns};
ghost use Rattle.unitary_model.specs.SameUpTo.{SameUpTo};
ghost use Rattle.unitary_model.specs.Placement.{IsPlacement, composed, identity};
ghost use Rattle.unitary_model.specs.Realises.{Realises};
ghost use Rattle.unitary_model.specs.Realised.{Placing, PlacedBy, Realised};

/// The amplitude of a joined list is the sum over the bits in the middle.
pub fn joined_amplitude()
    ensures sum { (us vs : List Op) (x y : List Bool) →
        amplitude (us ++ vs) x y ≡ sum_over (all_bits (length x)) (λ z. mul (amplitude us x z) (amplitude vs z y)) }
{}

/// The list from 0 to n-1 is a placement.
pub fn identity_is_placement()
    ensures placement { (n : ℕ) → IsPlacement n (identity n) }
{}

/// Every list on n wires realises itself, on these wires or on more.
pub fn realises_itself()
    ensures itself { (us : List Op) (n size : ℕ) → n ≤ size → WiresBelow n us →
        Realises us n us size (identity size) (identity size) 0 }
{}

/// A list with the amplitudes of another up to w^k realises it, wire for wire, and the other way round.
pub fn realises_same()
    ensures realises { (us vs : List Op) (n k : ℕ) → k < 8 → SameUpTo k n us vs →
        Realises us n vs n (identity n) (identity n) k }
    ensures same { (us vs : List Op) (n k : ℕ) →
        Realises us n vs n (identity n) (identity n) k → SameUpTo k n us vs }
{}

/// What realises a list that realises another, wire for wire, realises the other: the powers add up.
pub fn realises_chain()
    ensures chain { (us vs ws : List Op) (n size : ℕ) (first last : List ℕ) (i j : ℕ) →
        Realises us n vs n (identity n) (identity n) i → Realises vs n ws size first last j →
        Realises us n ws size first last ((i + j) % 8) }
{}

/// The same where the wires have moved: the placements compose, and the powers add up.
pub fn realises_composed()
    ensures composed { (us vs ws : List Op) (n size : ℕ) (first last further_first further_last : List ℕ) (i j : ℕ) →
        Realises us n vs size first last i → Realises vs size ws size further_first further_last j →
        Realises us n ws size (composed first further_first) (composed last further_last) ((i + j) % 8) }
{}

/// Two lists one after the other are realised one after the other, where the second begins at the
/// places at which the first ends: the powers add up.
pub fn realises_joined()
    ensures joined { (us vs rs ts : List Op) (n size : ℕ) (first middle last : List ℕ) (i j : ℕ) →
        Realises us n rs size first middle i → Realises vs n ts size middle last j →
        Realises (us ++ vs) n (rs ++ ts) size first last ((i + j) % 8) }
{}

/// From the working form on all wires to `Realises`.
pub fn realised_to_realises()
    ensures realises { (us rs : List Op) (n size : ℕ) (first last : List ℕ) (P Q : Placing) (k : ℕ) →
        n ≤ size → k < 8 → IsPlacement size first → IsPlacement size last →
        PlacedBy size first P → PlacedBy size last Q → WiresBelow n us → WiresBelow size rs →
        Realised us rs P Q k → Realises us n rs size first last k }
{}

/// From the working form to amplitudes.
pub fn turns_to_amplitudes()
    ensures same { (k n : ℕ) (us vs : List Op) → WiresBelow n us → WiresBelow n vs → Turns k us vs → SameUpTo k n us vs }
{}

/// No list has more odd path parities than T gates.
pub fn odd_paths_at_most_t_count()
    ensures at_most { (n : ℕ) (us : List Op) → odd_paths n us ≤ t_count us }
{}

/// The number of odd path parities is the same on each number of wires that the list fits on.
pub fn odd_paths_on_more_wires()
    ensures same { (n m : ℕ) (us : List Op) → n ≤ m → WiresBelow n us → odd_paths m us ≡ odd_paths n us }
{}
