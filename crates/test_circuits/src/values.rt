//! Entries of matrices, and what the tests do with them.

ghost use Rattle.std.specs.Prelude.{◌≤◌, length};

use unitary_model::Op;
use unitary_reference::entries::{Value, amplitude_of};

/// An entry of the matrix of at most 20 operations, times 2 for each `U` of theirs.
pub fn entry(ops: &[Op], from: &mut [bool], to: &[bool]) -> Value
    requires operations_limit { length ops.now ≤ 20 }
{
    amplitude_of(ops, from, to)
}

/// How many of the operations are a `U`, and so halve an entry.
pub fn halvings(ops: &[Op]) -> usize {
    let mut count = 0usize;
    for op in ops {
        if let Op::U { .. } = op {
            count = count.saturating_add(1);
        }
    }
    count
}

/// `v + u`, modulo 2^64 in each part.
pub fn sum(v: Value, u: Value) -> Value {
    Value {
        a: v.a.wrapping_add(u.a),
        b: v.b.wrapping_add(u.b),
        c: v.c.wrapping_add(u.c),
        d: v.d.wrapping_add(u.d),
    }
}

/// `2^times v`, modulo 2^64 in each part.
pub fn doubled(v: Value, times: usize) -> Value {
    let mut value = v;
    for _ in 0..times {
        value = sum(value, value);
    }
    value
}

/// `w^times v`.
pub fn turned(v: Value, times: u8) -> Value {
    let mut value = v;
    for _ in 0..times {
        value = Value {
            a: value.d.wrapping_neg(),
            b: value.a,
            c: value.b,
            d: value.c,
        };
    }
    value
}
