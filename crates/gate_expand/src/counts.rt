//! The numbers of T gates and CNOTs.

ghost use Rattle.std.specs.Prelude.{◌≡◌, ◌^◌, ◌<◌, [], ◌∷◌};
ghost use Rattle.unitary_model.specs.Operations.{t_count, cx_count};

use unitary_model::Op;

/// Counts the T gates, which must be fewer than 2^64.
pub fn t_count_of(ops: &[Op]) -> u64
    requires fits { t_count ops.now < 2 ^ 64 }
    ensures count { result ≡ t_count ops.now }
{
    let mut count = 0;
    for op in ops {
        count += t_gates(*op);
    }
    count
}

/// The T gates of one operation.
fn t_gates(op: Op) -> u64
    ensures count { result ≡ t_count (op ∷ []) }
{
    match op {
        Op::Cx { c: _, t: _ } => 0,
        Op::U { a, b, c, q: _ } => {
            if a == 0 {
                (b as u64 + c as u64) % 2
            } else {
                a as u64 % 2 + b as u64 % 2 + c as u64 % 2
            }
        }
    }
}

/// Counts the CNOTs, which must be fewer than 2^64.
pub fn cx_count_of(ops: &[Op]) -> u64
    requires fits { cx_count ops.now < 2 ^ 64 }
    ensures count { result ≡ cx_count ops.now }
{
    let mut count = 0;
    for op in ops {
        if let Op::Cx { c: _, t: _ } = *op {
            count += 1;
        }
    }
    count
}
