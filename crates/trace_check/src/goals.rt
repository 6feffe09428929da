//! The lines `goal` and `meet`: other gates are rewritten until they are those that were held.

ghost use Rattle.std.specs.Prelude.{◌≡◌, ℕ, ◌+◌, ◌^◌, ◌<◌, ◌≤◌, ◌∷◌, List, IfOk, IfSome, MatchOption, None, Some, codes, false, length, take, true};
ghost use Rattle.rewrite_pass.specs.TraceLines.{words};
ghost use Rattle.trace_text.specs.Texts.{lines_of};
ghost use Rattle.trace_check.specs.Progress.{IsHeldFit, BlockedWith, LeadsOn};
ghost use Rattle.trace_model.specs.declared.word.Word.TheVariants as kind;

use crate::gates::read_gates;
use crate::mark::Mark;
use crate::words::{known_small, one};
use circuit_list::{Circuit, Passed};
use std::alloc::{AllocError, Global};
use std::mem;
use unitary_model::turn_sum;

/// What is held while a goal is rewritten.
#[derive(Drop)]
pub(crate) struct Held {
    /// The gates before the line `goal`, and their turn.
    pub(crate) body: Circuit,
    pub(crate) turn: u8,
    /// The goal's gates, as they were given.
    pub(crate) goal: Circuit,
}

/// Holds the gates so far, and goes on with those that are listed behind a line `goal`. None where it doesn't apply.
pub(crate) fn aim<'a>(
    alloc: Global,
    mark: Mark<'a>,
    state: &mut Passed,
    held: &mut Option<Held>,
    numbers: &mut Vec<u32>,
) -> Result<Option<Mark<'a>>, AllocError>
    requires turn { state.old.turn < 8 }
    requires held { IsHeldFit state.old.body.wires held.old }
    requires short { mark.line + length mark.text.now < 2 ^ 32 }
    ensures wires { state.new.body.wires ≡ state.old.body.wires }
    ensures turn { state.new.turn < 8 }
    ensures held { IsHeldFit state.old.body.wires held.new }
    ensures shorter { IfOk result (λ o. IfSome o (λ m. length m.text.now ≤ length mark.entry.text.now)) }
    ensures short { IfOk result (λ o. IfSome o (λ m. m.line + length m.text.now ≤ mark.entry.line + length mark.entry.text.now)) }
    ensures later { IfOk result (λ o. IfSome o (λ m. mark.entry.line ≤ m.line)) }
    ensures counted { IfOk result (λ o. IfSome o
        (λ m. m.line + length (lines_of m.text.now) ≡ mark.entry.line + length (lines_of mark.entry.text.now))) }
    ensures step { IfOk result
        (λ o. MatchOption o (BlockedWith held.old state.old (words (codes "goal") numbers.old.items ∷ lines_of mark.entry.text.now))
        (λ m. LeadsOn kind.Goal held.old state.old held.new state.new
        (words (codes "goal") numbers.old.items ∷ lines_of mark.entry.text.now) (lines_of m.text.now))) }
{
    known_small(numbers);
    if held.is_some() {
        return Ok(None);
    }
    let Some(count) = one(numbers) else {
        return Ok(None);
    };
    state.body.facts();
    let Some(listed) = read_gates(alloc, mark.text, state.body.wires(), count, numbers)? else {
        return Ok(None);
    };
    listed.body.facts();
    let goal = listed.body.copy()?;
    let mut body = listed.body;
    body.link()?;
    *held = Some(Held {
        body: mem::replace(&mut state.body, body),
        turn: state.turn,
        goal,
    });
    state.turn = 0;
    Ok(Some(Mark {
        text: listed.behind,
        line: mark.line + count,
    }))
}

/// Whether two circuits have the same gates.
fn same_gates(left: &Circuit, right: &Circuit) -> bool
    ensures yes { result ≡ true → left.now.gates ≡ right.now.gates }
    ensures no { result ≡ false → left.now.gates ≡ right.now.gates → ⊥ }
{
    if left.len() != right.len() {
        return false;
    }
    'gates: for place in 0..left.len() {
        if left.gate(place) != right.gate(place) {
            return false;
        }
    }
    true
}

/// Goes on with the goal as it was given, where its gates have become those that were held. False where they haven't, or none is.
pub(crate) fn meet(
    state: &mut Passed,
    held: &mut Option<Held>,
    numbers: &[u32],
) -> Result<bool, AllocError>
    requires turn { state.old.turn < 8 }
    requires held { IsHeldFit state.old.body.wires held.old }
    ensures wires { state.new.body.wires ≡ state.old.body.wires }
    ensures turn { state.new.turn < 8 }
    ensures held { IsHeldFit state.old.body.wires held.new }
    ensures met { IfOk result (λ b. b ≡ true → (behind : List (List ℕ)) →
        LeadsOn kind.Meet held.old state.old held.new state.new (words (codes "meet") numbers.now ∷ behind) behind) }
    ensures not { IfOk result (λ b. b ≡ false → (behind : List (List ℕ)) →
        BlockedWith held.old state.old (words (codes "meet") numbers.now ∷ behind)) }
{
    if !numbers.is_empty() {
        return Ok(false);
    }
    let Some(old) = held.take() else {
        return Ok(false);
    };
    if !same_gates(&state.body, &old.body) {
        return Ok(false);
    }
    let mut body = old.goal;
    body.link()?;
    state.body = body;
    state.turn = turn_sum(old.turn, (8 - state.turn) % 8);
    Ok(true)
}
