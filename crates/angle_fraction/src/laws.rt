//! What holds of all fractions, as a function whose contract is the law. It takes nothing and does nothing.

ghost use Rattle.std.specs.Prelude.{◌≡◌, ◌<◌, ◌*ℤ◌, pos};
ghost use Rattle.angle_fraction.specs.Fraction.{Fraction, IsLowest, IsReduced, lowest};

/// Lowest terms have the value of the fraction and no common divisor, and equal fractions have the same.
pub fn lowest_terms()
    ensures reduced { (x : Fraction) → 0 < x.den → IsReduced x (lowest x) }
    ensures lowest { (x : Fraction) → 0 < x.den → IsLowest (lowest x) }
    ensures same { (x y : Fraction) → 0 < x.den → 0 < y.den → x.num *ℤ pos y.den ≡ y.num *ℤ pos x.den → lowest x ≡ lowest y }
{}
