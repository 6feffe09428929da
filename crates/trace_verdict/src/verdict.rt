//! What a trace says of the texts of two programs.

ghost use Rattle.std.specs.Prelude.{◌≡◌, ◌^◌, ◌<◌, IfOk, MatchResult, length};
ghost use Rattle.trace_verdict.specs.Told.{verdict_of, IsReadAs};
ghost use Rattle.trace_verdict.specs.Verdicts.{IsRealised, IsRefused, IsVerdict};

use program_reader::{ProgramFault, SourceProgram, means_once, read_text};
use std::alloc::{AllocError, Global};
use trace_check::{Outcome, check};
use trace_model::laws::traces_are_sound;

/// The first refusal of a text.
#[derive(Clone, Copy, Debug, PartialEq, Eq)]
pub struct TextRefusal {
    /// The number under which it is told.
    pub code: u8,
    /// The place of a byte in the text, or the statement, counted from 1.
    pub at: u32,
}

/// What a trace says of a source and a target.
#[derive(Debug, Drop)]
pub enum Verdict {
    /// It proves that the target realises the source: the qubit of each wire at first and at last, and the power of w.
    Yes {
        initial: Vec<u32>,
        last: Vec<u32>,
        phase: u8,
    },
    /// This line, from 1, is the first one that doesn't apply, or that is missing.
    No {
        line: u32,
    },
    /// The source is refused.
    Source(TextRefusal),
    /// The source is accepted, and the target is refused.
    Target(TextRefusal),
}

/// What the trace proves of two texts: that the target realises the source, or at which line it stops; or that a text is refused,
/// the source's refusal before the target's. The texts may have any length below 2^31. Fails for want of memory alone.
pub fn check_trace(
    alloc: Global,
    source: &[u8],
    target: &[u8],
    trace: &[u8],
) -> Result<Verdict, AllocError>
    requires source { length source.now < 2 ^ 31 }
    requires target { length target.now < 2 ^ 31 }
    requires trace { length trace.now < 2 ^ 31 }
    ensures verdict { IfOk result (IsVerdict source.now target.now trace.now) }
    ensures realises { IfOk result (IsRealised source.now target.now) }
{
    means_once();
    traces_are_sound();
    let before = match read(alloc, source)? {
        Ok(program) => program,
        Err(refusal) => return Ok(Verdict::Source(refusal)),
    };
    let behind = match read(alloc, target)? {
        Ok(program) => program,
        Err(refusal) => return Ok(Verdict::Target(refusal)),
    };
    before.facts();
    behind.facts();
    let outcome = check(alloc, before.ops(), behind.ops(), trace)?;
    Ok(told(outcome))
}

/// The program that a text spells, or its first refusal.
fn read(alloc: Global, text: &[u8]) -> Result<Result<SourceProgram, TextRefusal>, AllocError>
    requires { length text.now < 2 ^ 31 }
    ensures { IfOk result (λ r. MatchResult r (IsReadAs text.now) (IsRefused text.now)) }
{
    match read_text(alloc, text, false) {
        Ok(program) => Ok(Ok(program)),
        Err(ProgramFault::Refused(first)) => Ok(Err(TextRefusal {
            code: first.code(),
            at: first.at(),
        })),
        Err(ProgramFault::NoMemory) => Err(AllocError),
    }
}

/// The verdict on two programs.
fn told(outcome: Outcome) -> Verdict
    ensures { result ≡ verdict_of outcome }
{
    match outcome {
        Outcome::Proved {
            initial,
            last,
            phase,
        } => Verdict::Yes {
            initial,
            last,
            phase,
        },
        Outcome::Stopped { line } => Verdict::No { line },
    }
}
