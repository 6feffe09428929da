//! The rows of the table by hand, and all of them against the plain amplitude program.

ghost use Rattle.std.specs.Prelude.{◌<◌};
ghost use Rattle.gate_expand.specs.Expansion.{IsFineOp};

use circuit_list::Passed;
use gate_expand::{OpList, Ops, ReadList, expand};
use std::alloc::{AllocError, Global};
use std::test::Fail;
use test_circuits::{are_turned, gates_of, gates_of_text, operations};
use test_rows::{Wrong, each_row, field, word};
use unitary_model::Op;

/// The circuit of one operation on three wires.
fn expanded(alloc: Global, op: Op) -> Result<Passed, AllocError>
    requires { IsFineOp 3 op }
{
    let source = Ops {
        wires: 3,
        list: OpList::new(vec![in alloc; op]?),
        reads: ReadList::new(Vec::new(alloc)),
    };
    expand(alloc, &source)
}

/// Whether a circuit on three wires has the gates of a text, and the turn.
fn is_passed(alloc: Global, passed: &Passed, gates: &str, turn: u8) -> Result<bool, AllocError> {
    let is_right = passed.turn == turn && passed.body.wires() == 3;
    Ok(is_right && gates_of(alloc, &passed.body)? == gates_of_text(alloc, gates)?)
}

/// The angle of a row at an index, or one that no row has.
fn angle(row: &str, at: usize) -> u8 {
    word(row, at).parse::<u8>().unwrap_or(77)
}

/// Whether the operation on wire 0 with a row's angles has the row's gates and turn.
fn is_expanded(alloc: Global, row: &str) -> Result<bool, AllocError> {
    let angles = field(row, 0);
    let (a, b, c) = (angle(angles, 0), angle(angles, 1), angle(angles, 2));
    if a >= 8 || b >= 8 || c >= 8 {
        return Ok(false);
    }
    let passed = expanded(alloc, Op::U { a, b, c, q: 0 })?;
    is_passed(alloc, &passed, field(row, 1), angle(field(row, 2), 0))
}

/// Three angles, the gates, and the turn.
const ROWS: &str = "\
0 0 0||0
0 3 5||0
0 1 2|3.0|0
2 0 4|h.0|0
2 3 1|5.0 h.0 3.0|0
4 0 4|x.0|0
4 1 0|4.0 x.0 1.0|0
6 4 0|h.0|2
6 1 2|2.0 h.0 5.0|2
1 0 0|6.0 h.0 1.0 h.0 2.0|2
3 6 2|h.0 3.0 h.0|2
7 7 7|5.0 h.0 7.0 h.0 1.0|2";

#[test]
fn rows_by_hand(rt: HostRuntime) -> Result<(), Wrong> {
    each_row(rt.alloc(), ROWS, "\n", is_expanded)
}

#[test]
fn cnot_by_hand(rt: HostRuntime) -> Result<(), Fail> {
    let passed = expanded(rt.alloc(), Op::Cx { c: 1, t: 0 })?;
    assert!(rt; is_passed(rt.alloc(), &passed, "c10", 0)?);
    Ok(())
}

/// Whether each entry of the circuit's matrix is w^turn times that of the operation's; `abc` are the angles, as octal digits.
fn is_same(alloc: Global, abc: u16) -> Result<bool, AllocError>
    requires { abc < 512 }
{
    let (a, b, c) = (abc / 64, abc / 8 % 8, abc % 8);
    let op = Op::U {
        a: a as u8,
        b: b as u8,
        c: c as u8,
        q: 1,
    };
    let passed = expanded(alloc, op)?;
    let gates = operations(alloc, &passed.body)?;
    Ok(gates.len() <= 5 && are_turned(&[op], &gates, passed.turn))
}

#[test]
fn all_rows_by_their_entries(rt: HostRuntime) -> Result<(), Fail> {
    'angles: for abc in 0u16..512 {
        assert!(rt; is_same(rt.alloc(), abc)?, "{abc}");
    }
    Ok(())
}
