//! The gates that are left, so that the place of the next one is found without a look at the others.

ghost use Rattle.std.specs.Prelude.{◌≡◌, ℕ, IfOk, IfSome, List, None, remove, replicate};
ghost use Rattle.circuit_list.specs.declared.Gate.{Gate};
ghost use Rattle.sabre_route.specs.Left.{AreHeadsFrom, IsFirstGate, IsTaken};

use crate::links::wires_of;
use circuit_list::{Circuit, Gate, Slot};
use std::alloc::{AllocError, Global};
use std::marker::Model;

/// The gates of a circuit that are left, in order.
#[derive(Drop)]
pub struct Left {
    /// It is linked.
    circuit: Circuit,
    /// For each wire the slot of the first gate on it.
    heads: Vec<Option<Slot>>,
}

impl Model for Left {
    ghost use Rattle.std.specs.Prelude.{List};
    ghost use Rattle.circuit_list.specs.declared.Gate.{Gate};
    ghost use Rattle.sabre_route.specs.Left.{AreHeadsFrom};

    ghost Value = { List Gate };

    ghost view = { λ a. a.circuit.gates };

    ghost invariant = { λ a. AreHeadsFrom 0 a.circuit a.heads.items };
}

impl Left {
    /// All gates of a circuit.
    pub fn start(alloc: Global, circuit: &Circuit) -> Result<Left, AllocError>
        ensures ok { IfOk result (λ l. l ≡ circuit.now.gates) }
    {
        let mut circuit = circuit.copy()?;
        circuit.compact()?;
        circuit.link()?;
        let heads = heads_of(alloc, &circuit)?;
        Ok(Left { circuit, heads })
    }

    /// Takes away a gate that is first on its wires, and gives the place at which it stood.
    fn take(&mut self, gate: Gate) -> usize
        requires first { (j : ℕ) × IsFirstGate self.old j gate }
        ensures place { IsFirstGate self.old result gate }
        ensures taken { self.new ≡ remove self.old result }
    {
        // Its contract says that the gate's wires are there.
        self.circuit.facts();
        let (first, second) = wires_of(gate);
        let Some(slot) = self.heads[first as usize] else {
            unreachable!()
        };
        let place = self.circuit.place(slot);
        self.heads[first as usize] = self.circuit.next_on(slot, first);
        self.heads[second as usize] = self.circuit.next_on(slot, second);
        self.circuit.remove_at(slot);
        place
    }
}

/// No gate on any wire.
fn no_heads(alloc: Global, wires: u32) -> Result<Vec<Option<Slot>>, AllocError>
    ensures { IfOk result (λ v. v.items ≡ replicate wires None) }
{
    vec![in alloc; None; wires as usize]
}

/// For each wire the slot of the first gate on it.
fn heads_of(alloc: Global, circuit: &Circuit) -> Result<Vec<Option<Slot>>, AllocError>
    ensures { IfOk result (λ v. AreHeadsFrom 0 circuit.now v.items) }
{
    let mut heads = no_heads(alloc, circuit.wires())?;
    'gates: for place in (0..circuit.len()).rev() {
        let slot = circuit.slot(place);
        let (first, second) = wires_of(circuit.gate_at(slot));
        heads[first as usize] = Some(slot);
        heads[second as usize] = Some(slot);
    }
    Ok(heads)
}

/// Takes a gate that is first on its wires from those that are left, if these are known, and gives the place at which it stood.
pub fn take_from(left: &mut Option<Left>, gate: Gate) -> Option<usize>
    requires left { IfSome left.old (λ gs. (j : ℕ) × IsFirstGate gs j gate) }
    ensures taken { IsTaken gate left.old left.new result }
{
    match left {
        Some(left) => Some(left.take(gate)),
        None => None,
    }
}
