//! The events of a run, and what tells them.

ghost use Rattle.std.specs.Prelude.{◌≡◌, ℕ, [], None, Some, IfOk, IfSome, OnOk};
ghost use Rattle.sabre_route.specs.Left.{IsFirstGate};
ghost use Rattle.sabre_route.specs.Teller.{HasEmitted, HasSwapped};

use crate::left::{Left, take_from};
use circuit_list::{Circuit, Gate};
use std::alloc::{AllocError, Global};

/// An event of the routing machine.
#[derive(Clone, Copy, Debug, PartialEq, Eq)]
pub enum Event {
    /// A gate is emitted, which stood at this place among the gates that were left.
    Emit { place: usize },
    /// Two qubits are swapped.
    Swap { a: u32, b: u32 },
}

/// What tells the events of a run, where they are asked for.
#[derive(Drop)]
pub struct Teller {
    /// The gates that are left, where events are told.
    pub left: Option<Left>,
    /// The events so far.
    pub events: Vec<Event>,
}

impl Teller {
    /// Tells nothing.
    pub fn silent(alloc: Global) -> Teller
        ensures left { result.left ≡ None }
        ensures events { result.events.items ≡ [] }
    {
        Teller {
            left: None,
            events: Vec::new(alloc),
        }
    }

    /// Tells the events of a run over a circuit.
    pub fn telling(alloc: Global, circuit: &Circuit) -> Result<Teller, AllocError>
        ensures left { IfOk result (λ t. t.left ≡ Some circuit.now.gates) }
        ensures events { IfOk result (λ t. t.events.items ≡ []) }
    {
        let left = Left::start(alloc, circuit)?;
        Ok(Teller {
            left: Some(left),
            events: Vec::new(alloc),
        })
    }

    /// A gate is emitted, which is first on its wires.
    pub fn emit(&mut self, gate: Gate) -> Result<(), AllocError>
        requires left { IfSome self.old.left (λ gs. (j : ℕ) × IsFirstGate gs j gate) }
        ensures ok { OnOk result (HasEmitted gate self.old.left self.old.events.items self.new.left self.new.events.items) }
    {
        if let Some(place) = take_from(&mut self.left, gate) {
            self.events.push(Event::Emit { place })?;
        }
        Ok(())
    }

    /// Two qubits are swapped.
    pub fn swap(&mut self, a: u32, b: u32) -> Result<(), AllocError>
        ensures ok { OnOk result (HasSwapped a b self.old.left self.old.events.items self.new.left self.new.events.items) }
    {
        if self.left.is_some() {
            self.events.push(Event::Swap { a, b })?;
        }
        Ok(())
    }
}
