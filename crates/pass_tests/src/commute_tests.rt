//! Rows worked by hand.

use circuit_list::Gate;
use commute_rules::{Cancel, cancels, commute};
use std::alloc::{AllocError, Global};
use test_circuits::gates_of_text;
use test_rows::{Wrong, each_row, field};

/// The two gates of a row, if they are two.
fn pair(alloc: Global, row: &str) -> Result<Option<(Gate, Gate)>, AllocError> {
    let gates = gates_of_text(alloc, field(row, 0))?;
    match gates.as_slice() {
        [first, second] => Ok(Some((*first, *second))),
        _ => Ok(None),
    }
}

/// Whether the gates of a row commute as it says, in either order.
fn is_commuting(alloc: Global, row: &str) -> Result<bool, AllocError> {
    let Some((a, b)) = pair(alloc, row)? else {
        return Ok(false);
    };
    let wanted = field(row, 1) == "yes";
    Ok(commute(a, b) == wanted && commute(b, a) == wanted)
}

/// Two gates, and whether they commute.
const PAIRS: &str = "\
h.0 h.1|yes
h.0 1.1|yes
h.0 c12|yes
x.0 x.0|yes
1.0 1.0|yes
1.0 c01|yes
x.1 c01|yes
c01 c02|yes
c02 c12|yes
h.0 h.0|no
h.0 x.0|no
h.0 1.0|no
x.0 1.0|no
1.1 c01|no
x.0 c01|no
h.1 c01|no
c01 c10|no";

#[test]
fn commutes_by_the_table(rt: HostRuntime) -> Result<(), Wrong> {
    each_row(rt.alloc(), PAIRS, "\n", is_commuting)
}

/// The number behind a word, or one that no row has.
fn behind(text: &str, word: &str) -> u8 {
    text.strip_prefix(word)
        .unwrap_or("none")
        .parse::<u8>()
        .unwrap_or(77)
}

/// Whether two gates are together what a word and a number say.
fn is_told(found: Cancel, wanted: &str) -> bool {
    match found {
        Cancel::No => wanted == "no",
        Cancel::Merge { k } => k == behind(wanted, "merge "),
        Cancel::Both { turn } => turn == behind(wanted, "both "),
    }
}

fn is_cancelled(alloc: Global, row: &str) -> Result<bool, AllocError> {
    match pair(alloc, row)? {
        Some((a, b)) => Ok(is_told(cancels(a, b), field(row, 1))),
        None => Ok(false),
    }
}

/// Two gates, and what they are together: both gone with a turn, or merged to a phase.
const NEIGHBOURS: &str = "\
h.0 h.0|both 6
x.0 x.0|both 4
c01 c01|both 0
1.0 1.0|merge 2
1.0 7.0|both 0
5.0 6.0|merge 3
h.0 h.1|no
x.0 x.1|no
1.0 1.1|no
h.0 x.0|no
c01 c10|no
c01 c02|no";

#[test]
fn cancels_by_the_table(rt: HostRuntime) -> Result<(), Wrong> {
    each_row(rt.alloc(), NEIGHBOURS, "\n", is_cancelled)
}
