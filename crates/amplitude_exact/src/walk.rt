//! The entry of some operations.

ghost use Rattle.std.specs.Prelude.{◌≡◌, ◌≤◌, [], ◌∷◌, length, IfOk};
ghost use Rattle.amplitude_exact.specs.Entries.{IsExact, branches, most_entry_wires, most_branches};
ghost use Rattle.amplitude_exact.specs.Values.{amp_ring};

use crate::bits::number_of;
use crate::columns::{first_column, write_column};
use crate::halving::{Amp, reduced};
use gate_expand::Ops;
use std::alloc::{AllocError, Global};
use std::mem::swap;
use unitary_model::Op;

/// The number of the operations `U` whose `a` is neither 0 nor 4.
pub fn branches_of(ops: &[Op]) -> usize
    ensures count { result ≡ branches ops.now }
{
    let mut count = 0;
    'ops: for op in ops {
        count += branches_at(*op);
    }
    count
}

/// The branches of one operation, 1 or 0.
fn branches_at(op: Op) -> usize
    ensures count { result ≡ branches (op ∷ []) }
    ensures branches_limit { result ≤ 1 }
{
    match op {
        Op::Cx { c: _, t: _ } => 0,
        Op::U {
            a,
            b: _,
            c: _,
            q: _,
        } => { if a == 0 || a == 4 { 0 } else { 1 } }
    }
}

/// The entry of the unitary of the operations from the bits `from` to the bits `to`, the first for wire 0, with the least
/// power of 2. There are at most 12 wires, and as many bits in each list; of the operations at most 60 are branches. Fails
/// for want of memory alone.
pub fn amplitude(alloc: Global, source: &Ops, from: &[bool], to: &[bool]) -> Result<Amp, AllocError>
    requires wires_limit { source.now.wires ≤ most_entry_wires }
    requires branches_limit { branches source.now.list ≤ most_branches }
    requires from_length { length from.now ≡ source.now.wires }
    requires to_length { length to.now ≡ source.now.wires }
    ensures exact { IfOk result (λ v. IsExact source.now.list from.now to.now (amp_ring v) v.e) }
{
    entry(alloc, source.wires, source.list.as_slice(), from, to)
}

/// The entry of a list of operations on so many wires.
fn entry(
    alloc: Global,
    wires: u32,
    ops: &[Op],
    from: &[bool],
    to: &[bool],
) -> Result<Amp, AllocError>
    requires wires_limit { wires ≤ most_entry_wires }
    requires branches_limit { branches ops.now ≤ most_branches }
    requires from_length { length from.now ≡ wires }
    requires to_length { length to.now ≡ wires }
    ensures exact { IfOk result (λ v. IsExact ops.now from.now to.now (amp_ring v) v.e) }
{
    let mut column = first_column(alloc, to)?;
    let mut next = first_column(alloc, to)?;
    let mut left = ops.len();
    'ops: while left > 0 {
        left -= 1;
        write_column(ops[left], wires, &column, &mut next);
        swap(&mut column, &mut next);
    }
    Ok(reduced(column[number_of(from)], branches_of(ops) as u32))
}
