//! The source: the program that the input spells, or one that is drawn.

ghost use Rattle.std.specs.Prelude.{◌≡◌, ◌<◌, ◌≤◌, IfOk, IfErr, Err, true};
ghost use Rattle.bench_program.specs.Program.{most_gates};
ghost use Rattle.unitary_model.specs.Limits.{most_qubits};
ghost use Rattle.qroute_top.specs.Causes.{IsSourceCause};
ghost use Rattle.qroute_top.specs.Delivered.{IsHad, drawn_program};

use crate::stops::SourceStop;
use bench_program::made;
use outside_io::{InputFault, Source, read_all};
use program_reader::{MOST_TEXT_BYTES, ProgramRefusal, SourceProgram, read_program};
use std::alloc::{AllocError, Global};

/// Reads the input to its end, or to one byte past the limit, and the program that it spells, in parts where `keep` says that its
/// barriers are kept.
#[tactic(auto, using(crate::proofs::SourceLaws::read))]
pub fn read_source<I: Source>(
    alloc: Global,
    input: &mut I,
    keep: bool,
) -> Result<SourceProgram, SourceStop>
    ensures ok { IfOk result (IsHad true keep (I.left input.old) (I.left input.new)) }
    ensures err { IfErr result (IsSourceCause (I.left input.old) (I.faults input.old) (I.faults input.new)) }
    ensures grows { I.faults input.old ≤ I.faults input.new }
    ensures calm { (result ≡ Err SourceStop.Failed → ⊥) → I.faults input.new ≡ I.faults input.old }
{
    match read_all(alloc, input, MOST_TEXT_BYTES) {
        Err(InputFault::Failed) => Err(SourceStop::Failed),
        Err(InputFault::TooLong) => Err(SourceStop::Refused(ProgramRefusal::TooLong)),
        Err(InputFault::NoMemory) => Err(SourceStop::NoMemory),
        Ok(text) => Ok(read_program(alloc, &text, keep)?),
    }
}

/// The program of so many gates on `qubits` wires that is drawn from `start` on. No bit reads a wire of it.
pub fn drawn_source(
    alloc: Global,
    start: u32,
    gates: u32,
    qubits: u32,
) -> Result<SourceProgram, AllocError>
    requires gates_limit { gates ≤ most_gates }
    requires some { 0 < qubits }
    requires limit { qubits ≤ most_qubits }
    ensures drawn { IfOk result (λ s. s ≡ drawn_program start gates qubits) }
{
    let ops = made(alloc, start, gates, qubits)?;
    SourceProgram::new(alloc, ops, Vec::new(alloc), 0)
}
