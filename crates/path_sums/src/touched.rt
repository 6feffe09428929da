//! The wires that two circuits touch, as they come up: what is kept of each wire is kept of these alone.

ghost use Rattle.std.specs.Prelude.{◌≡◌, ◌<◌, All, IfOk, OnOk, length, nat_eq, true};
ghost use Rattle.std.specs.List.{IsDistinct, list_any};
ghost use Rattle.indexmap.specs.IndexSet.{insert_all};
ghost use Rattle.path_sums.specs.Names.{AreAmong, place_in, wires_touched, wires_on};

use circuit_list::{Circuit, Gate};
use indexmap::IndexSet;
use std::alloc::{AllocError, Global};

/// The place of a wire among those that are touched.
pub(crate) fn place_in(touched: &IndexSet<u32>, q: u32) -> usize
    requires { list_any (nat_eq q) touched.now.keys ≡ true }
    ensures place { result ≡ place_in touched.now.keys q }
    ensures within { result < length touched.now.keys }
{
    touched.get_index_of(&q).unwrap_or(touched.len())
}

/// Puts the wires of a gate behind those that are touched, where they aren't there.
fn touch(touched: &mut IndexSet<u32>, gate: Gate) -> Result<(), AllocError>
    ensures { OnOk result (touched.new.keys ≡ insert_all nat_eq touched.old.keys (wires_on gate)) }
{
    match gate {
        Gate::H { q } | Gate::X { q } | Gate::P { k: _, q } => {
            touched.insert(q)?;
        }
        Gate::Cx { c, t } => {
            touched.insert(c)?;
            touched.insert(t)?;
        }
    }
    Ok(())
}

/// Puts the wires of a circuit's gates behind those that are touched, those that aren't there.
fn touch_wires(touched: &mut IndexSet<u32>, body: &Circuit) -> Result<(), AllocError>
    ensures { OnOk result (touched.new.keys ≡ insert_all nat_eq touched.old.keys (wires_touched body.now.gates)) }
{
    'gates: for place in 0..body.len() {
        touch(touched, body.gate(place))?;
    }
    Ok(())
}

/// The wires that two circuits touch.
pub(crate) fn touched_by(
    alloc: Global,
    old: &Circuit,
    new: &Circuit,
) -> Result<IndexSet<u32>, AllocError>
    requires { old.now.wires ≡ new.now.wires }
    ensures old { IfOk result (λ s. AreAmong s.keys (wires_touched old.now.gates)) }
    ensures new { IfOk result (λ s. AreAmong s.keys (wires_touched new.now.gates)) }
    ensures distinct { IfOk result (λ s. IsDistinct nat_eq s.keys) }
    ensures below { IfOk result (λ s. All (λ q. q < old.now.wires) s.keys) }
    ensures within { IfOk result (λ s. All (λ q. q < new.now.wires) s.keys) }
{
    old.facts();
    new.facts();
    let mut touched = IndexSet::new(alloc);
    touch_wires(&mut touched, old)?;
    touch_wires(&mut touched, new)?;
    let _different = touched.len();
    Ok(touched)
}
