//! The circuit that is to be written for a source with spare wires behind its own.

ghost use Rattle.std.specs.Prelude.{◌≡◌, ◌+◌, ◌≤◌, IfOk};
ghost use Rattle.circuit_list.specs.Gates.{most_wires};
ghost use Rattle.program_parts.specs.Cuts.{uncut};
ghost use Rattle.circuit_target.specs.Targets.{IsFit};
ghost use Rattle.qroute_top.specs.Plans.{IsSparedTarget};

use circuit_list::laws::fine_plain;
use circuit_target::{Rewritten, Target, optimised};
use placement::Placement;
use program_reader::SourceProgram;
use spare_layers::laws::{spared_chain, spared_circuit};
use spare_layers::with_spares;
use std::alloc::{AllocError, Global};
use unitary_model::turn_sum;

/// The circuit on its own wires and so many spare ones behind them: the layers that take fewer blocks there are written anew.
pub fn on_spares(alloc: Global, source: &SourceProgram, spares: u32) -> Result<Target, AllocError>
    requires one { source.now.cut ≡ uncut source.now.ops }
    requires wires_limit { source.now.wires + spares ≤ most_wires }
    ensures stands { IfOk result (IsSparedTarget source.now spares) }
    ensures fit { IfOk result (IsFit source.now) }
{
    source.facts();
    fine_plain();
    spared_chain();
    spared_circuit();
    let Rewritten { passed, .. } = optimised(alloc, source.ops(), false)?;
    let made = with_spares(alloc, spares, &passed.body)?;
    let own = Placement::identity(alloc, made.body.wires())?;
    let initial = own.copy()?;
    // There is no device, and there are no parts, to tell of.
    let (cost, parts) = (None, None);
    Ok(Target {
        lengths: vec![in alloc; made.body.len()]?,
        barriers: Vec::new(alloc),
        initial,
        last: own,
        swaps: 0,
        turn: turn_sum(passed.turn, made.turn),
        cost,
        parts,
        spares: Some(spares),
        trace: Vec::new(alloc),
        body: made.body,
    })
}
