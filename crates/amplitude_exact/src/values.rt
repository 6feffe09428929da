//! Values of the ring Z[w], w the eighth root of unity.

ghost use Rattle.std.specs.Prelude.{◌≡◌, ◌+◌, ◌^◌, ◌<◌, cond};
ghost use Rattle.unitary_model.specs.Ring.{plus as sum_of, minus, turn1, turn};
ghost use Rattle.unitary_model.specs.Amplitude.{one_plus as times_one_plus, one_minus as times_one_minus};
ghost use Rattle.amplitude_exact.specs.Columns.{IsWithin, entry_of};
ghost use Rattle.amplitude_exact.specs.Values.{ring_of};

/// The value a + b w + c w^2 + d w^3.
#[derive(Clone, Copy, Debug, PartialEq, Eq)]
pub struct Value {
    pub a: i128,
    pub b: i128,
    pub c: i128,
    pub d: i128,
}

/// The sum, part by part.
fn plus(v: Value, u: Value) -> Value
    requires left { IsWithin (2 ^ 125) (ring_of v) }
    requires right { IsWithin (2 ^ 125) (ring_of u) }
    ensures sum { ring_of result ≡ sum_of (ring_of v) (ring_of u) }
{
    Value {
        a: v.a + u.a,
        b: v.b + u.b,
        c: v.c + u.c,
        d: v.d + u.d,
    }
}

/// -v
fn negated(v: Value) -> Value
    requires small { IsWithin (2 ^ 125) (ring_of v) }
    ensures negated { ring_of result ≡ minus (ring_of v) }
{
    Value {
        a: -v.a,
        b: -v.b,
        c: -v.c,
        d: -v.d,
    }
}

/// w v
fn turned_once(v: Value) -> Value
    requires small { IsWithin (2 ^ 125) (ring_of v) }
    ensures turned { ring_of result ≡ turn1 (ring_of v) }
{
    Value {
        a: -v.d,
        b: v.a,
        c: v.b,
        d: v.c,
    }
}

/// w^2 v
fn turned_twice(v: Value) -> Value
    requires small { IsWithin (2 ^ 125) (ring_of v) }
    ensures turned { ring_of result ≡ turn 2 (ring_of v) }
{
    Value {
        a: -v.c,
        b: -v.d,
        c: v.a,
        d: v.b,
    }
}

/// w^3 v
fn turned_thrice(v: Value) -> Value
    requires small { IsWithin (2 ^ 125) (ring_of v) }
    ensures turned { ring_of result ≡ turn 3 (ring_of v) }
{
    Value {
        a: -v.b,
        b: -v.c,
        c: -v.d,
        d: v.a,
    }
}

/// w^k v for a `k` below 4
fn turned_below_4(v: Value, k: u16) -> Value
    requires small { IsWithin (2 ^ 125) (ring_of v) }
    requires below { k < 4 }
    ensures turned { ring_of result ≡ turn k (ring_of v) }
{
    match k {
        0 => v,
        1 => turned_once(v),
        2 => turned_twice(v),
        _ => turned_thrice(v),
    }
}

/// w^k v
fn turned(v: Value, k: u16) -> Value
    requires small { IsWithin (2 ^ 125) (ring_of v) }
    ensures turned { ring_of result ≡ turn k (ring_of v) }
{
    // w^4 is -1
    if k % 8 < 4 {
        turned_below_4(v, k % 8)
    } else {
        turned_below_4(negated(v), k % 8 - 4)
    }
}

/// (1 + w^a) v
fn one_plus(a: u8, v: Value) -> Value
    requires small { IsWithin (2 ^ 121) (ring_of v) }
    ensures value { ring_of result ≡ times_one_plus a (ring_of v) }
{
    plus(v, turned(v, a as u16))
}

/// (1 - w^a) v
fn one_minus(a: u8, v: Value) -> Value
    requires small { IsWithin (2 ^ 121) (ring_of v) }
    ensures value { ring_of result ≡ times_one_minus a (ring_of v) }
{
    plus(v, negated(turned(v, a as u16)))
}

/// What a `U` makes of the values behind it, `to0` and `to1`, where the bit before it is 0.
fn from_zero(a: u8, b: u8, to0: Value, to1: Value) -> Value
    requires first { IsWithin (2 ^ 120) (ring_of to0) }
    requires second { IsWithin (2 ^ 120) (ring_of to1) }
    ensures value { ring_of result ≡ sum_of (times_one_plus a (ring_of to0)) (turn (b + 2) (times_one_minus a (ring_of to1))) }
{
    plus(one_plus(a, to0), turned(one_minus(a, to1), b as u16 + 2))
}

/// The same where the bit before it is 1.
fn from_one(a: u8, b: u8, c: u8, to0: Value, to1: Value) -> Value
    requires first { IsWithin (2 ^ 120) (ring_of to0) }
    requires second { IsWithin (2 ^ 120) (ring_of to1) }
    ensures value { ring_of result ≡ sum_of (minus (turn (c + 2) (times_one_minus a (ring_of to0)))) (turn (b + c) (times_one_plus a (ring_of to1))) }
{
    plus(
        negated(turned(one_minus(a, to0), c as u16 + 2)),
        turned(one_plus(a, to1), b as u16 + c as u16),
    )
}

/// What a `U` makes of the values behind it, `bit` being the bit before it.
pub(crate) fn branched(a: u8, b: u8, c: u8, bit: bool, to0: Value, to1: Value) -> Value
    requires first { IsWithin (2 ^ 120) (ring_of to0) }
    requires second { IsWithin (2 ^ 120) (ring_of to1) }
    ensures value { ring_of result ≡ entry_of a b c bit (ring_of to0) (ring_of to1) }
{
    if bit {
        from_one(a, b, c, to0, to1)
    } else {
        from_zero(a, b, to0, to1)
    }
}

/// Half of what a diagonal `U` makes of the value behind it, `bit` being the bit before it.
pub(crate) fn turned_on(b: u8, c: u8, bit: bool, to0: Value, to1: Value) -> Value
    requires second { IsWithin (2 ^ 120) (ring_of to1) }
    ensures value { ring_of result ≡ cond bit (turn (b + c) (ring_of to1)) (ring_of to0) }
{
    if bit {
        turned(to1, b as u16 + c as u16)
    } else {
        to0
    }
}

/// Half of what a `U` that exchanges 0 and 1 makes of the values behind it, `bit` being the bit before it.
pub(crate) fn exchanged(b: u8, c: u8, bit: bool, to0: Value, to1: Value) -> Value
    requires first { IsWithin (2 ^ 120) (ring_of to0) }
    requires second { IsWithin (2 ^ 120) (ring_of to1) }
    ensures value { ring_of result ≡ cond bit (turn (c + 6) (ring_of to0)) (turn (b + 2) (ring_of to1)) }
{
    if bit {
        turned(to0, c as u16 + 6)
    } else {
        turned(to1, b as u16 + 2)
    }
}
