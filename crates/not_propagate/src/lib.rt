//! NOT propagation: X gates go to the end of the circuit.
//!
//! In goes a circuit; out comes one without an X but for the last gates of wires, and its turn. The
//! contract is that of a pass (`rewrite_pass`): the circuit is the same up to w^turn, with no more T
//! gates, CNOTs and odd path parities; and each X is the last gate on its wire, so each wire has one
//! at most (`specs/LastX.antt`). A trace gets one step, with the new gates, where they aren't what went in.
//!
//! A circuit is always fine, so nothing is refused: the only error is want of memory. Time is linear
//! in the gates, but for the logarithm that putting one in takes.
#![tactic(auto)]

mod walk;

ghost use Rattle.std.specs.Prelude.{◌≡◌, IfOk, true};
ghost use Rattle.not_propagate.specs.LastX.{XLast};
ghost use Rattle.rewrite_pass.specs.Law.{IsRewriting};
ghost use Rattle.rewrite_pass.specs.Traces.{AreSteps};

use circuit_list::{Circuit, Passed};
use rewrite_pass::{Pass, Rewriting, Trace, Traced};
use std::alloc::{AllocError, Global};
use walk::Walk;

/// NOT propagation (Nam et al. 2018, section 4; VOQC, section 4.3): each X moves behind the gates of its wire. Two on one wire vanish, a
/// phase is inverted on the way, an H becomes H and Z, and a CNOT takes the X of its control to its target too.
#[derive(Clone, Copy, Debug)]
pub struct NotPass;

impl Pass for NotPass {
    ghost shape = { λ _ gates. XLast gates };

    ghost kept = { λ _ _ _. Unit {0} };

    fn run(&self, alloc: Global, body: Circuit) -> Result<Passed, AllocError> {
        let (passed, _step) = propagated(alloc, body, false)?;
        Ok(passed)
    }
}

impl Traced for NotPass {
    fn run_traced(
        &self,
        alloc: Global,
        body: Circuit,
        trace: &mut Trace,
    ) -> Result<Passed, AllocError> {
        let (passed, mut step) = propagated(alloc, body, true)?;
        trace.append(&mut step)?;
        Ok(passed)
    }
}

/// What [`NotPass`] gives, and the step that led to it, if it is told: the result has the path sum of the circuit.
fn propagated(alloc: Global, body: Circuit, told: bool) -> Result<(Passed, Trace), AllocError>
    ensures wires { IfOk result (λ r. r.0.body.wires ≡ body.wires) }
    ensures law { IfOk result (λ r. IsRewriting body.wires body.gates r.0.body.gates r.0.turn) }
    ensures shape { IfOk result (λ r. XLast r.0.body.gates) }
    ensures steps { IfOk result (λ r. told ≡ true → AreSteps body.wires body.gates r.1 r.0.body.gates r.0.turn) }
{
    body.facts();
    let mut walk = Walk::start(alloc, body.wires(), body.len())?;
    'gates: for i in 0..body.len() {
        walk.step(body.gate(i))?;
    }
    let passed = walk.finish()?;
    let mut circuit = Rewriting::new(alloc, body, told);
    circuit.replace(passed.body, passed.turn)?;
    Ok(circuit.finish())
}
