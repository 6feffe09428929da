//! The least power of 2 with which an entry is a value of the ring.

ghost use Rattle.std.specs.Prelude.{◌≡◌, ℕ, ℤ, ◌+ℤ◌, List, Bool, None, IfSome};
ghost use Rattle.unitary_model.specs.declared.Op.{Op};
ghost use Rattle.amplitude_exact.specs.Entries.{IsEntry, IsExact};
ghost use Rattle.amplitude_exact.specs.Values.{amp_ring, ring_of};

use crate::values::Value;

/// An entry: the value a + b w + c w^2 + d w^3, divided by 2^e.
#[derive(Clone, Copy, Debug, PartialEq, Eq)]
pub struct Amp {
    pub a: i128,
    pub b: i128,
    pub c: i128,
    pub d: i128,
    pub e: u32,
}

/// Half of a value, where each part is even.
fn halved(v: Value) -> Option<Value>
    ensures half_a { IfSome result (λ h. h.a +ℤ h.a ≡ v.a) }
    ensures half_b { IfSome result (λ h. h.b +ℤ h.b ≡ v.b) }
    ensures half_c { IfSome result (λ h. h.c +ℤ h.c ≡ v.c) }
    ensures half_d { IfSome result (λ h. h.d +ℤ h.d ≡ v.d) }
    ensures none { result ≡ None → (j k l m : ℤ) → j +ℤ j ≡ v.a → k +ℤ k ≡ v.b → l +ℤ l ≡ v.c → m +ℤ m ≡ v.d → ⊥ }
{
    if v.a % 2 != 0 {
        return None;
    }
    if v.b % 2 != 0 {
        return None;
    }
    if v.c % 2 != 0 {
        return None;
    }
    if v.d % 2 != 0 {
        return None;
    }
    Some(Value {
        a: v.a / 2,
        b: v.b / 2,
        c: v.c / 2,
        d: v.d / 2,
    })
}

/// A value divided by a power of 2.
fn divided(v: Value, e: u32) -> Amp
    ensures value { amp_ring result ≡ ring_of v }
    ensures power { result.e ≡ e }
{
    Amp {
        a: v.a,
        b: v.b,
        c: v.c,
        d: v.d,
        e,
    }
}

/// The value divided by 2 as long as it can be, with the power that is left.
pub(crate) fn reduced(value: Value, power: u32) -> Amp
    ensures exact { (us : List Op) (x y : List Bool) → IsEntry us x y (ring_of value) power → IsExact us x y (amp_ring result) result.e }
{
    let mut v = value;
    let mut e = power;
    'halves: while e > 0 {
        match halved(v) {
            None => return divided(v, e),
            Some(half) => {
                v = half;
                e -= 1;
            }
        }
    }
    divided(v, e)
}
