//! The variables of two circuits' H, numbered as they come up.

ghost use Rattle.std.specs.Prelude.{◌≡◌, ◌<◌, ◌+◌, ◌*◌, ℕ, suc, [], ◌∷◌, IfOk, OnOk, length, nat_eq, slice_index};
ghost use Rattle.circuit_list.specs.Gates.{IsFine};
ghost use Rattle.indexmap.specs.IndexSet.{insert_all};
ghost use Rattle.path_parity.specs.NamedSums.{seen_after, unseen};
ghost use Rattle.path_sums.specs.Names.{AreAmong, IsTouched, counts, number_by, seen_last, variable, variables_of, wires_touched};

use crate::touched::place_in;
use circuit_list::{Circuit, Gate};
use indexmap::IndexSet;
use std::alloc::{AllocError, Global};

/// No H on any of some wires.
pub(crate) fn first_counts(alloc: Global, wires: usize) -> Result<Vec<u64>, AllocError>
    ensures wires { IfOk result (λ v. length v.items ≡ wires) }
    ensures none { IfOk result (λ v. (q : ℕ) → slice_index v.items q ≡ 0) }
{
    let mut seen = Vec::new(alloc);
    'wires: for _ in 0..wires {
        seen.push(0)?;
    }
    Ok(seen)
}

/// How many H stand on a wire with one more, and the variable of that one.
pub(crate) fn next_variable(seen: u64, wires: u32, q: u32) -> Result<(u64, u64), AllocError>
    ensures seen { IfOk result (λ r. r.0 ≡ suc seen) }
    ensures variable { IfOk result (λ r. r.1 ≡ suc seen * wires + q) }
{
    let Some(next) = seen.checked_add(1) else {
        return Err(AllocError);
    };
    let Some(rows) = next.checked_mul(u64::from(wires)) else {
        return Err(AllocError);
    };
    let Some(variable) = rows.checked_add(u64::from(q)) else {
        return Err(AllocError);
    };
    Ok((next, variable))
}

/// The number of an H's variable: the first numbers are those of the wires, and then come the names in order, and what is none.
pub(crate) fn number(names: &IndexSet<u64>, wires: u32, variable: u64) -> Result<u64, AllocError>
    ensures { IfOk result (λ u. u ≡ number_by wires names.now.keys variable) }
{
    let place = names.get_index_of(&variable).unwrap_or(names.len());
    match u64::from(wires).checked_add(place as u64) {
        Some(number) => Ok(number),
        None => Err(AllocError),
    }
}

/// Puts the variable of an H behind the names, if it isn't there, and counts it on its wire.
fn note_name(
    touched: &IndexSet<u32>,
    names: &mut IndexSet<u64>,
    seen: &mut [u64],
    wires: u32,
    gate: Gate,
) -> Result<(), AllocError>
    requires touched { IsTouched touched.now.keys gate }
    requires counted { length seen.old ≡ length touched.now.keys }
    ensures long { length seen.new ≡ length seen.old }
    ensures seen { OnOk result (counts touched.now.keys seen.new ≡ seen_after gate (counts touched.now.keys seen.old)) }
    ensures names { OnOk result (names.new.keys ≡ insert_all nat_eq names.old.keys
        (variable wires gate (counts touched.now.keys seen.old))) }
{
    match gate {
        Gate::H { q } => {
            let place = place_in(touched, q);
            let (more, variable) = next_variable(seen[place], wires, q)?;
            names.insert(variable)?;
            seen[place] = more;
        }
        Gate::X { q: _ } | Gate::P { k: _, q: _ } | Gate::Cx { c: _, t: _ } => {}
    }
    Ok(())
}

/// Puts the variables of a circuit's H behind the names, those that aren't there, and tells how many H stand on each wire that
/// is touched.
pub(crate) fn note_names(
    alloc: Global,
    touched: &IndexSet<u32>,
    names: &mut IndexSet<u64>,
    body: &Circuit,
) -> Result<Vec<u64>, AllocError>
    requires { AreAmong touched.now.keys (wires_touched body.now.gates) }
    ensures wires { IfOk result (λ v. length v.items ≡ length touched.now.keys) }
    ensures seen { IfOk result (λ v. counts touched.now.keys v.items ≡ seen_last body.now.gates unseen) }
    ensures names { OnOk result (names.new.keys ≡ insert_all nat_eq names.old.keys (variables_of body.now.wires body.now.gates unseen)) }
{
    let mut seen = first_counts(alloc, touched.len())?;
    'gates: for place in 0..body.len() {
        note_name(touched, names, &mut seen, body.wires(), body.gate(place))?;
    }
    Ok(seen)
}
