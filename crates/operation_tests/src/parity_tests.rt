//! Rows by hand, and a slow program beside.

ghost use Rattle.std.specs.Prelude.{IfOk};
ghost use Rattle.path_parity.specs.Sets.{IsLabel};

use path_parity::{Label, labels_of, odd_paths};
use std::alloc::{AllocError, Global};
use test_circuits::circuit_of_text;
use test_rows::{Wrong, each_row, field, number};
use unitary_model::Op;
use unitary_reference::paths::odd_paths_of;

/// Numbers that stand apart by commas, the first a place, the others the words of a set from there on.
fn words_of(alloc: Global, text: &str) -> Result<Vec<u64>, AllocError> {
    let mut words = Vec::new(alloc);
    if text.is_empty() {
        return Ok(words);
    }
    'words: for word in text.split(',') {
        words.push(number(word, 0))?;
    }
    Ok(words)
}

/// Whether a label has the set of a text, and the bit where `!` stands before it.
fn is_label(alloc: Global, label: &Label, text: &str) -> Result<bool, AllocError> {
    let (set, bit) = match text.strip_prefix("!") {
        Some(set) => (set, true),
        None => (text, false),
    };
    Ok(label.bit == bit && label.set.as_slice() == words_of(alloc, set)?.as_slice())
}

/// Whether the gates of a row have its labels.
fn has_labels(alloc: Global, row: &str) -> Result<bool, AllocError> {
    let Some(body) = circuit_of_text(alloc, 3, field(row, 0))? else {
        return Ok(false);
    };
    let labels = labels_of(alloc, &body)?;
    'labels: for (at, label) in labels.list.iter().enumerate() {
        let wanted = field(row, 2).split(' ').nth(at).unwrap_or("none");
        if !is_label(alloc, label, wanted)? {
            return Ok(false);
        }
    }
    Ok(labels.list.len() as u64 == number(field(row, 1), 0))
}

/// Gates on three wires, the number of the labels, and the labels. Variables 0 to 2 are those of the wires, so the first H
/// gives variable 3.
const LABELS: &str = "\
|0|
1.0 h.0 h.0 1.0|2|0,1 0,16
1.0 x.0 1.0|2|0,1 !0,1
h.0 x.0 c01 1.1 c01 1.1|2|!0,10 0,2";

#[test]
fn labels_by_hand(rt: HostRuntime) -> Result<(), Wrong> {
    each_row(rt.alloc(), LABELS, "\n", has_labels)
}

/// A label of any words, to be written anew.
fn other_label(alloc: Global) -> Result<Label, AllocError> {
    let set = Vec::from_slice(alloc, &[9, 8, 7])?;
    Ok(Label { set, bit: false })
}

/// Whether a variable alone has the words of a row, written where other words were.
fn is_single(alloc: Global, row: &str) -> Result<bool, AllocError> {
    let mut written = other_label(alloc)?;
    written.write_fresh(number(field(row, 0), 0))?;
    Ok(written.set.as_slice() == words_of(alloc, field(row, 1))?.as_slice())
}

/// A variable and its words: 63 is the last of the word at place 0, and 64 the first of that at place 1.
const SINGLES: &str = "\
0|0,1
63|0,9223372036854775808
64|1,1
18446744073709551615|288230376151711743,9223372036854775808";

#[test]
fn single_variables(rt: HostRuntime) -> Result<(), Wrong> {
    each_row(rt.alloc(), SINGLES, "\n", is_single)
}

/// A label with one variable more, or one fewer.
fn toggled(alloc: Global, label: &Label, variable: u64) -> Result<Label, AllocError>
    requires packed { IsLabel label.now }
    ensures packed { IfOk result IsLabel }
{
    let single = Label::fresh(alloc, variable)?;
    let mut sum = Label::fresh(alloc, variable)?;
    sum.write_sum(label, &single)?;
    Ok(sum)
}

/// The label of a set, variable by variable.
fn label_of(alloc: Global, set: &[u64]) -> Result<Label, AllocError>
    ensures packed { IfOk result IsLabel }
{
    let single = Label::fresh(alloc, 0)?;
    let mut label = toggled(alloc, &single, 0)?;
    let Some((from, words)) = set.split_first() else {
        return Ok(label);
    };
    'variables: for number in 0..words.len().saturating_mul(64) {
        let word = words.get(number / 64).copied().unwrap_or(0);
        if (word >> (number % 64)) & 1 == 1 {
            let variable = from.saturating_mul(64).saturating_add(number as u64);
            label = toggled(alloc, &label, variable)?;
        }
    }
    Ok(label)
}

/// Whether a set is the sum of two labels, written where other words were.
fn is_sum(alloc: Global, left: &Label, right: &Label, sum: &[u64]) -> Result<bool, AllocError>
    requires left { IsLabel left.now }
    requires right { IsLabel right.now }
{
    let mut written = other_label(alloc)?;
    written.write_sum(left, right)?;
    Ok(written.set.as_slice() == sum)
}

/// Whether two sets add up to the third of a row, whichever stands first, and the third and either to the other.
fn adds_up(alloc: Global, row: &str) -> Result<bool, AllocError> {
    let xs = words_of(alloc, field(row, 0))?;
    let ys = words_of(alloc, field(row, 1))?;
    let zs = words_of(alloc, field(row, 2))?;
    let (left, right) = (label_of(alloc, &xs)?, label_of(alloc, &ys)?);
    let sum = label_of(alloc, &zs)?;
    let are_built = left.set.as_slice() == xs.as_slice()
        && right.set.as_slice() == ys.as_slice()
        && sum.set.as_slice() == zs.as_slice();
    Ok(
        are_built
            && is_sum(alloc, &left, &right, &zs)?
            && is_sum(alloc, &right, &left, &zs)?
            && is_sum(alloc, &sum, &right, &xs)?
            && is_sum(alloc, &left, &sum, &ys)?,
    )
}

/// Two sets and their sum. Sets that are apart, that touch, that overlap, and of which one lies within the other; words that
/// become 0 are cut off at both ends, and stay in the middle. Then sets of seven, eight, nine and seventeen words; and of nine
/// that begin one place later.
const SUMS: &str = "\
||
7,1,2||7,1,2
0,1|3,256|0,1,0,0,256
2,5,6|4,7|2,5,6,7
2,5,6,7|3,5,3,9|2,5,3,4,9
2,5,6,7|3,6|2,5,0,7
2,5,6,7,9|2,5,6,1,9|4,6
2,5,6|2,5,6,0,8|5,8
3,1,2,3,4,5,6,7|3,64,64,64,64,64,64,64|3,65,66,67,68,69,70,71
3,1,2,3,4,5,6,7,8|3,64,64,64,64,64,64,64,64|3,65,66,67,68,69,70,71,72
3,1,2,3,4,5,6,7,8,9|3,64,64,64,64,64,64,64,64,64|3,65,66,67,68,69,70,71,72,73
3,1,2,3,4,5,6,7,8,9,10,11,12,13,14,15,16,17|3,64,64,64,64,64,64,64,64,64,64,64,64,64,64,64,64,64|3,65,66,67,68,69,70,71,72,73,74,75,76,77,78,79,80,81
3,1,2,3,4,5,6,7,8,9,10|4,64,64,64,64,64,64,64,64,64|3,1,66,67,68,69,70,71,72,73,74";

#[test]
fn sums_by_hand(rt: HostRuntime) -> Result<(), Wrong> {
    each_row(rt.alloc(), SUMS, "\n", adds_up)
}

/// Whether the gates of a row have so many odd path parities.
fn has_odd_paths(alloc: Global, row: &str) -> Result<bool, AllocError> {
    match circuit_of_text(alloc, 3, field(row, 0))? {
        Some(body) => Ok(odd_paths(alloc, &body)? == number(field(row, 1), 0)),
        None => Ok(false),
    }
}

/// Gates on three wires, and how many odd path parities they have; the last row by another program.
const ODD_PATHS: &str = "\
|0
1.0 1.0|0
1.0 h.0 h.0 1.0|2
1.0 x.0 1.0|0
1.1 c01 1.1 c01 1.1|1
3.2 7.2 x.0 h.1 3.0 c12 3.0 x.2 1.0|1";

#[test]
fn odd_paths_by_hand(rt: HostRuntime) -> Result<(), Wrong> {
    each_row(rt.alloc(), ODD_PATHS, "\n", has_odd_paths)
}

/// Whether a circuit on three wires has as many odd path parities as the slow program counts of its operations.
fn agrees(alloc: Global, gates: &str) -> Result<bool, AllocError> {
    let ops = [
        Op::Cx { c: 1, t: 0 },
        Op::U {
            a: 0,
            b: 0,
            c: 7,
            q: 2,
        },
        Op::U {
            a: 0,
            b: 0,
            c: 7,
            q: 1,
        },
        Op::U {
            a: 0,
            b: 0,
            c: 1,
            q: 0,
        },
        Op::U {
            a: 0,
            b: 0,
            c: 1,
            q: 0,
        },
        Op::U {
            a: 2,
            b: 0,
            c: 4,
            q: 1,
        },
        Op::Cx { c: 2, t: 0 },
        Op::U {
            a: 0,
            b: 0,
            c: 1,
            q: 2,
        },
        Op::Cx { c: 2, t: 1 },
    ];
    let Some(body) = circuit_of_text(alloc, 3, gates)? else {
        return Ok(false);
    };
    let counted = odd_paths_of(alloc, 3, ops.as_slice())?;
    Ok(odd_paths(alloc, &body)? == counted as u64)
}

#[test]
fn agrees_with_the_slow_program(rt: HostRuntime) -> Result<(), Wrong> {
    let gates = "c10 7.2 7.1 1.0 1.0 h.1 c20 1.2 c21";
    each_row(rt.alloc(), gates, "\n", agrees)
}
