//! The line `elide`: a swap that nothing writes.

ghost use Rattle.std.specs.Prelude.{◌≡◌, ℕ, ◌<◌, ◌≤◌, MatchOption, Some, false, length, slice_get, true};
ghost use Rattle.circuit_list.specs.Slots.{IsLive, place_of};
ghost use Rattle.circuit_list.specs.declared.Gate.{Gate};
ghost use Rattle.trace_check.specs.Elides.{ByFirst, IsElided, IsReverse};

use crate::routing::{Routing, first_at};
use circuit_list::{Circuit, Gate, Slot};

/// The CNOT from `t` to `c` that is next on both wires behind one from `c` to `t`.
fn reverse_behind(rest: &Circuit, slot: Slot, c: u32, t: u32) -> Option<Slot>
    requires live { IsLive rest.now slot }
    requires gate { slice_get rest.now.gates (place_of slot rest.now.slots) ≡ Some (Gate.Cx c t) }
    ensures found { MatchOption result ((j : ℕ) → IsReverse rest.now.gates (place_of slot rest.now.slots) c t j → ⊥)
        (λ s. IsLive rest.now s × IsReverse rest.now.gates (place_of slot rest.now.slots) c t (place_of s rest.now.slots)) }
{
    let next = rest.next_on(slot, c)?;
    let other = rest.next_on(slot, t)?;
    if rest.place(next) != rest.place(other) {
        return None;
    }
    if rest.gate_at(next) == (Gate::Cx { c: t, t: c }) {
        Some(next)
    } else {
        None
    }
}

/// Three CNOTs that are a swap: its wires, and their places.
#[derive(Clone, Copy, Debug)]
struct Swapping {
    a: u32,
    b: u32,
    second: usize,
    third: usize,
}

/// The three CNOTs that are a swap, the first of which stands at a place and is first on its wires. Each of the others has its
/// place among the gates that are left without those before it.
fn swapping_at(rest: &Circuit, place: usize) -> Option<Swapping>
    ensures found { MatchOption result ((a b j k : ℕ) → ByFirst rest.now.gates place a b j k → ⊥)
        (λ s. ByFirst rest.now.gates place s.a s.b s.second s.third) }
    ensures fine { MatchOption result (Unit {0}) (λ s. (s.a < rest.now.wires) × (s.b < rest.now.wires)) }
{
    let first = first_at(rest, place)?;
    let Gate::Cx { c, t } = first.gate else {
        return None;
    };
    let second = reverse_behind(rest, first.slot, c, t)?;
    let third = reverse_behind(rest, second, t, c)?;
    Some(Swapping {
        a: c,
        b: t,
        second: rest.place(second) - 1,
        third: rest.place(third) - 2,
    })
}

/// The line `elide`: three CNOTs that are first on their wires, one after the other, and are a swap leave the list, and their
/// wires exchange where they stand. False where none stand at the place that do; then nothing changes.
pub(crate) fn elide(state: &mut Routing, place: usize) -> bool
    requires wires { state.old.rest.wires ≤ length state.old.now }
    ensures rest { state.new.rest.wires ≡ state.old.rest.wires }
    ensures first { state.new.first ≡ state.old.first }
    ensures qubits { length state.new.now ≡ length state.old.now }
    ensures agreed { state.new.agreed ≡ state.old.agreed }
    ensures turn { state.new.turn ≡ state.old.turn }
    ensures applies { result ≡ true → IsElided place state.old.now state.old.rest.gates state.new.now state.new.rest.gates }
    ensures not { result ≡ false → ((a b j k : ℕ) → ByFirst state.old.rest.gates place a b j k → ⊥) × ((state.new.rest.gates ≡ state.old.rest.gates)
        × (state.new.now ≡ state.old.now)) }
{
    let Some(found) = swapping_at(&state.rest, place) else {
        return false;
    };
    let (u, v) = (state.now.phys(found.a), state.now.phys(found.b));
    state.now.swap(u, v);
    state.rest.remove(place);
    state.rest.remove(found.second);
    state.rest.remove(found.third);
    true
}
