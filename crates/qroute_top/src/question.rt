//! Questions on a program: the entry of its unitary that is asked for, and whether there is room for spare wires.

ghost use Rattle.std.specs.Prelude.{◌≡◌, ◌+◌, ◌≤◌, ℕ, List, length, None, Some, IfOk, IfErr, IfSome, false, true, []};
ghost use Rattle.amplitude_exact.specs.Entries.{branches, most_branches, most_entry_wires};
ghost use Rattle.circuit_list.specs.Gates.{most_wires};
ghost use Rattle.qroute_top.specs.Plans.{IsFitAnswer, IsAnswerOf, has_line, has_text};
ghost use Rattle.command_line.specs.Demands.{Entry as EntryOf, Spares};
ghost use Rattle.program_parts.specs.Cuts.{uncut};
ghost use Rattle.qroute_top.specs.Questions.{IsEntryText, IsQuestionRefusal};
ghost use Rattle.qroute_top.specs.Stops.{IsUnanswered};
ghost use Rattle.qroute_top.specs.declared.stops.QuestionRefusal.{QuestionRefusal as RefusedQuestion};

use crate::plan::Answer;
use crate::stops::{QuestionRefusal, QuestionStop};
use amplitude_exact::{Amp, amplitude, branches_of};
use circuit_list::MOST_WIRES;
use command_line::bits::BitList;
use program_reader::SourceProgram;
use route_report::{Entry, entry_line};
use std::alloc::Global;

/// The most wires of a program of which an entry is told.
const MOST_ENTRY_WIRES: u32 = 12;

/// The most of its operations that are branches.
const MOST_BRANCHES: usize = 60;

/// Why the entry of a program between two lists of bits isn't told.
fn refusal_of(source: &SourceProgram, from: &[bool], to: &[bool]) -> Option<QuestionRefusal>
    requires { source.now.cut ≡ uncut source.now.ops }
    ensures refused { IfSome result (IsQuestionRefusal (Some (EntryOf from.now to.now)) source.now) }
    ensures answered { result ≡ None → (r : RefusedQuestion) → IsQuestionRefusal (Some (EntryOf from.now to.now)) source.now r → ⊥ }
    ensures wires_limit { result ≡ None → source.now.wires ≤ most_entry_wires }
    ensures branches_limit { result ≡ None → branches source.now.ops ≤ most_branches }
    ensures from_length { result ≡ None → length from.now ≡ source.now.wires }
    ensures to_length { result ≡ None → length to.now ≡ source.now.wires }
{
    let ops = source.ops();
    let wires = ops.wires;
    if wires > MOST_ENTRY_WIRES {
        return Some(QuestionRefusal::WideProgram { qubits: wires });
    }
    let branches = branches_of(ops.list.as_slice());
    if branches > MOST_BRANCHES {
        return Some(QuestionRefusal::ManyBranches {
            branches: branches as u64,
        });
    }
    if from.len() != wires as usize {
        return Some(QuestionRefusal::BitsLength { qubits: wires });
    }
    if to.len() != wires as usize {
        return Some(QuestionRefusal::BitsLength { qubits: wires });
    }
    None
}

/// Why so many spare wires can't stand behind a program's.
pub fn spares_refusal(source: &SourceProgram, spares: u32) -> Option<QuestionRefusal>
    requires spares_limit { spares ≤ 255 }
    ensures refused { IfSome result (IsQuestionRefusal (Some (Spares spares)) source.now) }
    ensures answered { result ≡ None → (r : RefusedQuestion) → IsQuestionRefusal (Some (Spares spares)) source.now r → ⊥ }
    ensures wires_limit { result ≡ None → source.now.wires + spares ≤ most_wires }
{
    source.facts();
    let qubits = source.wires();
    if qubits + spares > MOST_WIRES {
        return Some(QuestionRefusal::TooManySpares { qubits, spares });
    }
    None
}

/// The entry as its line tells it.
fn told(amp: Amp) -> Entry
    ensures a { result.a ≡ amp.a }
    ensures b { result.b ≡ amp.b }
    ensures c { result.c ≡ amp.c }
    ensures d { result.d ≡ amp.d }
    ensures e { result.e ≡ amp.e }
{
    Entry {
        a: amp.a,
        b: amp.b,
        c: amp.c,
        d: amp.d,
        e: amp.e,
    }
}

/// The line of the entry of a program's unitary between two lists of bits; nothing goes to the report.
pub fn entry_answer(
    alloc: Global,
    source: &SourceProgram,
    from: &BitList,
    to: &BitList,
) -> Result<Answer, QuestionStop>
    requires uncut { source.now.cut ≡ uncut source.now.ops }
    ensures made { IfOk result (λ w. (text line : List ℕ) → IsAnswerOf w text line → IsEntryText source.now.ops from.now to.now text × (line ≡ [])) }
    ensures answered { IfOk result (λ w. (r : RefusedQuestion) → IsQuestionRefusal (Some (EntryOf from.now to.now)) source.now r → ⊥) }
    ensures fit { IfOk result IsFitAnswer }
    ensures writes { IfOk result (λ w. has_text w ≡ true) }
    ensures tells { IfOk result (λ w. has_line w ≡ false) }
    ensures err { IfErr result (IsUnanswered (EntryOf from.now to.now) source.now) }
{
    let from = from.as_slice();
    let to = to.as_slice();
    match refusal_of(source, from, to) {
        Some(refusal) => Err(QuestionStop::Refused(refusal)),
        None => {
            let amp = amplitude(alloc, source.ops(), from, to)?;
            let text = entry_line(alloc, &told(amp))?;
            Ok(Answer::Text { text })
        }
    }
}
