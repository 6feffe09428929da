//! The steps of a rewriting, if they are asked for.

ghost use Rattle.std.specs.Prelude.{◌≡◌, ◌++◌, ◌∷◌, [], cond, true, OnErr, OnOk};
ghost use Rattle.circuit_list.specs.Slots.{IsLive, place_of};
ghost use Rattle.rewrite_pass.specs.TraceOf.{AddsSums};
ghost use Rattle.rewrite_pass.specs.Traces.{Step};

use crate::trace::{Trace, TraceStep};
use circuit_list::{Circuit, Slot};
use std::alloc::AllocError;

/// The steps so far; a silent log drops what it is told.
#[derive(Drop)]
pub(crate) struct Log {
    pub(crate) steps: Trace,
    pub(crate) told: bool,
}

impl Log {
    /// Notes that the gates in two slots are about to become one, or to go. If memory runs out, nothing changes.
    pub(crate) fn push_pair(
        &mut self,
        body: &Circuit,
        first: Slot,
        second: Slot,
        merge: bool,
    ) -> Result<(), AllocError>
        requires first { IsLive body.now first }
        requires second { IsLive body.now second }
        ensures told { self.new.told ≡ self.old.told }
        ensures pushed { OnOk result (self.old.told ≡ true → self.new.steps ≡ self.old.steps
            ++ cond merge (Step.Join (place_of first body.now.slots) (place_of second body.now.slots)) (Step.Both (place_of first body.now.slots) (place_of second body.now.slots)) ∷ []) }
        ensures unchanged { OnErr result (self.new ≡ self.old) }
    {
        if !self.told {
            return Ok(());
        }
        let first = body.place(first);
        let second = body.place(second);
        self.steps.push(if merge {
            TraceStep::Join { first, second }
        } else {
            TraceStep::Both { first, second }
        })
    }

    /// Notes that the window of a rule is about to be changed. If memory runs out, nothing changes.
    pub(crate) fn push_rule(&mut self, number: u8, place: usize) -> Result<(), AllocError>
        ensures told { self.new.told ≡ self.old.told }
        ensures pushed { OnOk result (self.old.told ≡ true → self.new.steps ≡ self.old.steps ++ Step.Rule number place ∷ []) }
        ensures unchanged { OnErr result (self.new ≡ self.old) }
    {
        if !self.told {
            return Ok(());
        }
        self.steps.push(TraceStep::Rule { number, place })
    }

    /// Notes that a circuit is about to come in place of another. If memory runs out, nothing changes.
    pub(crate) fn push_sums(&mut self, old: &Circuit, new: &Circuit) -> Result<(), AllocError>
        ensures told { self.new.told ≡ self.old.told }
        ensures pushed { OnOk result (self.old.told ≡ true → AddsSums old.now.gates new.now.gates self.old.steps self.new.steps) }
        ensures unchanged { OnErr result (self.new ≡ self.old) }
    {
        if !self.told {
            return Ok(());
        }
        self.steps.push_sums(old, new)
    }
}
