//! Gates, each on a line of its own.

ghost use Rattle.std.specs.Prelude.{◌≡◌, ℕ, ◌+◌, ◌≤◌, ◌∷◌, ◌++◌, List, [], All, IfOk, IfSome, MatchOption, false, length, map, true};
ghost use Rattle.std.specs.List.{flat_map};
ghost use Rattle.circuit_list.specs.Gates.{IsFine, most_wires};
ghost use Rattle.circuit_list.specs.declared.Gate.{Gate};
ghost use Rattle.rewrite_pass.specs.TraceLines.{gate_line, gate_numbers, words};
ghost use Rattle.trace_text.specs.Texts.{lines_of};
ghost use Rattle.trace_model.specs.Spelling.{AreSmall, gate_word};

use crate::words::{one, split_words, two};
use circuit_list::{Circuit, Gate};
use std::alloc::{AllocError, Global};
use trace_text::first_line;

/// A circuit that was read from lines, and the text behind them.
#[derive(Drop)]
pub(crate) struct Listed<'a> {
    pub(crate) body: Circuit,
    pub(crate) behind: &'a [u8],
}

/// Whether a gate may stand in a circuit on so many wires.
fn is_fine(gate: Gate, wires: u32) -> bool
    ensures yes { result ≡ true → IsFine wires gate }
    ensures no { result ≡ false → IsFine wires gate → ⊥ }
{
    match gate {
        Gate::H { q } | Gate::X { q } => q < wires,
        Gate::P { k, q } => q < wires && k > 0 && k < 8,
        Gate::Cx { c, t } => c < wires && t < wires && c != t,
    }
}

/// The gate that a word and its numbers spell. None where they spell none that may stand in a circuit.
fn gate_from(word: &[u8], numbers: &[u32]) -> Option<Gate>
    ensures { MatchOption result ((g : Gate) (n : ℕ) → IsFine n g → word.now ≡ gate_word g → numbers.now ≡ gate_numbers g → ⊥)
        (λ g. (word.now ≡ gate_word g) × (numbers.now ≡ gate_numbers g)) }
{
    if word == b"H".as_slice() {
        let q = one(numbers)?;
        return Some(Gate::H { q });
    }
    if word == b"X".as_slice() {
        let q = one(numbers)?;
        return Some(Gate::X { q });
    }
    let (first, second) = two(numbers)?;
    if word == b"P".as_slice() {
        let k = u8::try_from(first).ok()?;
        return Some(Gate::P { k, q: second });
    }
    if word == b"C".as_slice() {
        return Some(Gate::Cx {
            c: first,
            t: second,
        });
    }
    None
}

/// The gate on so many wires that a line spells.
fn read_gate(line: &[u8], wires: u32, numbers: &mut Vec<u32>) -> Result<Option<Gate>, AllocError>
    ensures { IfOk result (λ o. MatchOption o ((g : Gate) → IsFine wires g → AreSmall (gate_numbers g) → line.now ≡ gate_line g → ⊥)
        (λ g. IsFine wires g × (line.now ≡ gate_line g))) }
{
    let Some(word) = split_words(line, numbers)? else {
        return Ok(None);
    };
    match gate_from(word, numbers) {
        Some(gate) if is_fine(gate, wires) => Ok(Some(gate)),
        _ => Ok(None),
    }
}

/// The circuit of the gates that so many lines spell. None where there are fewer lines, or where one spells no gate on the wires.
pub(crate) fn read_gates<'a>(
    alloc: Global,
    text: &'a [u8],
    wires: u32,
    count: u32,
    numbers: &mut Vec<u32>,
) -> Result<Option<Listed<'a>>, AllocError>
    requires wires_limit { wires ≤ most_wires }
    ensures none { IfOk result (λ o. MatchOption o ((gs : List Gate) (rest : List (List ℕ)) → length gs ≡ count → All (IsFine wires) gs →
        AreSmall (flat_map gate_numbers gs) → lines_of text.now ≡ map gate_line gs ++ rest → ⊥) (λ l. Unit {0})) }
    ensures some { IfOk result (λ o. MatchOption o (Unit {0}) (λ l. (l.body.wires ≡ wires) × ((length l.body.gates ≡ count)
        × (lines_of text.now ≡ map gate_line l.body.gates ++ lines_of l.behind.now)))) }
    ensures shorter { IfOk result (λ o. IfSome o (λ l. count + length l.behind.now ≤ length text.now)) }
{
    let mut body = Circuit::empty(alloc, wires)?;
    let mut behind = text;
    'lines: for _number in 0..count {
        let Some((line, rest)) = first_line(behind) else {
            return Ok(None);
        };
        let Some(gate) = read_gate(line, wires, numbers)? else {
            return Ok(None);
        };
        body.push(gate)?;
        behind = rest;
    }
    Ok(Some(Listed { body, behind }))
}
