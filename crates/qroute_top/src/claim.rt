//! The claim that one text does what another does, by the trace in its comments.

ghost use Rattle.std.specs.Prelude.{◌≡◌, ◌≤◌, ℕ, List, IfErr, IfOk, Err, false, length, true, []};
ghost use Rattle.outside_io.specs.Shelf.{TellsText};
ghost use Rattle.program_parts.specs.Cuts.{uncut};
ghost use Rattle.trace_model.specs.Proves.{Proves};
ghost use Rattle.trace_text.specs.Texts.{trace_of};
ghost use Rattle.qroute_top.specs.Stops.{IsReadAs, IsClaimStop, IsTextStop, IsTraceStop, IsUnreadText, unloaded_text};
ghost use Rattle.circuit_target.specs.Standing.{claim_of};
ghost use Rattle.qroute_top.specs.Claims.{IsVerified, limit_of};
ghost use Rattle.qroute_top.specs.Plans.{IsFitAnswer, IsAnswerOf, has_line, has_text};

use crate::plan::Answer;
use crate::stops::{ClaimStop, Stop};
use command_line::name::Name;
use outside_io::{Shelf, TextFault, load_text};
use program_reader::{ProgramFault, ProgramRefusal, SourceProgram, read_text};
use route_report::{Side, verdict_line};
use std::alloc::Global;
use trace_check::{Outcome, check};
use trace_model::laws::traces_are_sound;
use trace_text::trace_of;

/// The most bytes of a text: the source's is no longer than an input, the target's has 64 MiB.
fn limit_of(side: Side) -> usize
    ensures { result ≡ limit_of side }
{
    match side {
        Side::Source => program_reader::MOST_TEXT_BYTES,
        Side::Target => 67_108_864,
    }
}

/// Why a text of the shelf isn't had.
fn stop_of(side: Side, fault: TextFault) -> Stop
    ensures { result ≡ unloaded_text side fault }
{
    match fault {
        TextFault::Failed => Stop::Claim(ClaimStop::Failed),
        TextFault::Absent => Stop::Claim(ClaimStop::Absent),
        TextFault::TooLong => Stop::Claim(ClaimStop::Refused {
            side,
            refusal: ProgramRefusal::TooLong,
        }),
        TextFault::NoMemory => Stop::NoMemory,
    }
}

/// A text of the shelf, and the program that it spells.
#[derive(Drop)]
struct Loaded {
    text: Vec<u8>,
    program: SourceProgram,
}

/// The program of a text that isn't too long.
fn program_of(alloc: Global, side: Side, text: &[u8]) -> Result<SourceProgram, Stop>
    requires { length text.now ≤ limit_of side }
    ensures ok { IfOk result (IsReadAs text.now) }
    ensures err { IfErr result (IsUnreadText side text.now) }
{
    match read_text(alloc, text, false) {
        Ok(program) => Ok(program),
        Err(ProgramFault::Refused(refusal)) => Err(Stop::Claim(ClaimStop::Refused {
            side,
            refusal,
        })),
        Err(ProgramFault::NoMemory) => Err(Stop::NoMemory),
    }
}

/// The text of this name on the shelf, with the program that it spells.
#[tactic(auto, using(crate::proofs::ClaimLaws::texts))]
fn load_program<F: Shelf>(
    alloc: Global,
    shelf: &mut F,
    name: &Name,
    side: Side,
) -> Result<Loaded, Stop>
    ensures told { IfOk result (λ l. TellsText (F.content shelf.old name.now) l.text.items) }
    ensures short { IfOk result (λ l. length l.text.items ≤ limit_of side) }
    ensures accepted { IfOk result (λ l. IsReadAs l.text.items l.program) }
    ensures err { IfErr result (IsTextStop side (F.content shelf.old name.now) (F.faults shelf.old) (F.faults shelf.new)) }
    ensures keeps { (other : List ℕ) → F.content shelf.new other ≡ F.content shelf.old other }
    ensures grows { F.faults shelf.old ≤ F.faults shelf.new }
    ensures calm { (result ≡ Err (Stop.Claim ClaimStop.Failed) → ⊥) → F.faults shelf.new ≡ F.faults shelf.old }
{
    match load_text(alloc, shelf, name.as_str(), limit_of(side)) {
        Err(fault) => Err(stop_of(side, fault)),
        Ok(text) => {
            let program = program_of(alloc, side, &text)?;
            Ok(Loaded { text, program })
        }
    }
}

/// The power up to which the target's program realises the source's, by the trace in its text.
fn power_of(alloc: Global, source: &SourceProgram, target: &Loaded) -> Result<u8, Stop>
    requires short { length target.now.text.items ≤ limit_of Side.Target }
    requires source { source.now.cut ≡ uncut source.now.ops }
    requires target { target.now.program.cut ≡ uncut target.now.program.ops }
    ensures ok { IfOk result (λ j. (first : List ℕ) × (last : List ℕ)
        × Proves (claim_of source.now target.now.program) (trace_of target.now.text.items) first last j) }
    ensures err { IfErr result (IsTraceStop (claim_of source.now target.now.program) (trace_of target.now.text.items)) }
{
    source.facts();
    target.program.facts();
    let trace = trace_of(alloc, &target.text)?;
    match check(alloc, source.ops(), target.program.ops(), &trace)? {
        Outcome::Proved { phase, .. } => Ok(phase),
        Outcome::Stopped { line } => Err(Stop::Claim(ClaimStop::Trace { line })),
    }
}

/// The line of the claim that the text of the second name does what that of the first does; nothing goes to the report.
#[tactic(auto, using(crate::proofs::ClaimLaws::texts))]
pub fn claim_answer<F: Shelf>(
    alloc: Global,
    shelf: &mut F,
    source: &Name,
    target: &Name,
) -> Result<Answer, Stop>
    ensures made { IfOk result (λ w. (text line : List ℕ) → IsAnswerOf w text line →
        IsVerified (F.content shelf.old) source.now target.now text × (line ≡ [])) }
    ensures fit { IfOk result IsFitAnswer }
    ensures writes { IfOk result (λ w. has_text w ≡ true) }
    ensures tells { IfOk result (λ w. has_line w ≡ false) }
    ensures err { IfErr result (IsClaimStop (F.content shelf.old) source.now target.now (F.faults shelf.old) (F.faults shelf.new)) }
    ensures keeps { (other : List ℕ) → F.content shelf.new other ≡ F.content shelf.old other }
    ensures calm { (result ≡ Err (Stop.Claim ClaimStop.Failed) → ⊥) → F.faults shelf.new ≡ F.faults shelf.old }
{
    traces_are_sound();
    let source = load_program(alloc, shelf, source, Side::Source)?;
    let target = load_program(alloc, shelf, target, Side::Target)?;
    source.program.facts();
    target.program.facts();
    let phase = power_of(alloc, &source.program, &target)?;
    let text = verdict_line(alloc, phase)?;
    Ok(Answer::Text { text })
}
