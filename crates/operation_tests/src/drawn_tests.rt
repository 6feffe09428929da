//! Programs that are drawn against those that a program of its own computed.

use bench_program::made;
use std::alloc::{AllocError, Global};
use std::test::Fail;
use test_rows::{Wrong, each_row, field, small, word};
use unitary_model::Op;

/// Some operations with their wires, as `u204.1 cx0.2 `.
fn told(alloc: Global, ops: &[Op]) -> Result<String, AllocError> {
    let mut text = String::new(alloc);
    'ops: for op in ops {
        match *op {
            Op::U { a, b, c, q } => write!(text, "u{a}{b}{c}.{q} ")?,
            Op::Cx { c, t } => write!(text, "cx{c}.{t} ")?,
        }
    }
    Ok(text)
}

/// The operations of the program that is drawn from a start, if there is one.
fn drawn(alloc: Global, start: u32, gates: u32, size: u32) -> Result<String, AllocError> {
    if gates > 20_000 || size == 0 || size > 256 {
        return String::from_str(alloc, "no program");
    }
    let program = made(alloc, start, gates, size)?;
    if program.wires != size || !program.reads.as_slice().is_empty() {
        return String::from_str(alloc, "other wires");
    }
    told(alloc, program.list.as_slice())
}

/// Whether the program of a row's start, gates and wires has the row's operations.
fn is_drawn(alloc: Global, row: &str) -> Result<bool, AllocError> {
    let head = field(row, 0);
    let text = drawn(alloc, small(head, 0), small(head, 1), small(head, 2))?;
    Ok(text.as_str().strip_suffix(' ').unwrap_or("") == field(row, 1))
}

/// Start, gates and wires, and the operations, which a program of its own computed.
const PROGRAMS: &str = "\
1 12 4|cx1.2 cx2.1 u007.2 u001.2 u002.2 u404.0 u007.0 u007.3 u404.1 u002.1 cx2.3 u204.0
0 12 2|cx0.1 u404.1 u002.0 cx0.1 cx0.1 cx0.1 u001.0 u002.1 cx1.0 u007.1 u002.1 cx1.0
7 10 1|u204.0 u001.0 u001.0 u204.0 u002.0 u002.0 u204.0 u204.0 u204.0 u404.0
4294967295 12 64|cx44.42 u002.62 cx56.37 cx0.43 u007.31 cx32.43 cx24.5 u007.16 u001.3 u002.35 u007.40 cx4.7
3 12 256|u002.251 u002.202 u404.163 cx85.69 u001.83 u007.104 cx198.23 u002.59 cx88.214 cx251.197 cx155.3 u002.205
2 0 3|";

#[test]
fn programs(rt: HostRuntime) -> Result<(), Wrong> {
    each_row(rt.alloc(), PROGRAMS, "\n", is_drawn)
}

/// The gate of a number that is drawn, as `specs/Program.antt` of `bench_program` has them, on two wires or more.
fn kind(number: u32) -> &'static str {
    word(
        "u204. u001. u007. u002. u404. cx cx cx",
        (number % 8) as usize,
    )
}

/// Whether a word is the CNOT of three numbers that are drawn: its kind, its control, and the steps to its target.
fn is_first(told: &str, row: &str, size: u32) -> bool {
    let (control, steps) = (small(row, 2), small(row, 3));
    let Some((c, t)) = told.strip_prefix("cx").unwrap_or("").split_once('.') else {
        return false;
    };
    if size < 2 || kind(small(row, 1)) != "cx" {
        return false;
    }
    let (c, t) = (small(c, 0), small(t, 0));
    c == control % size && t == c.wrapping_add(1).wrapping_add(steps % (size - 1)) % size
}

/// Whether the first two gates from a row's start are those of the row's numbers: three for a CNOT, and the next gate's kind.
fn is_on(alloc: Global, row: &str, size: u32) -> Result<bool, AllocError> {
    let text = drawn(alloc, small(row, 0), 2, size)?;
    let told = text.as_str();
    Ok(is_first(word(told, 0), row, size) && word(told, 1).starts_with(kind(small(row, 4))))
}

/// The same on each of four numbers of wires.
fn is_of_draws(alloc: Global, row: &str) -> Result<bool, AllocError> {
    'sizes: for size in [256u32, 255, 253, 251] {
        if !is_on(alloc, row, size)? {
            return Ok(false);
        }
    }
    Ok(true)
}

/// A start, and the first four numbers that are drawn from it, which a program of its own computed.
const DRAWS: &str = "\
1 908834774 1093944153 1392341196 822192870
0 167951807 218396424 1299921937 861605236
7 1059165278 2052263231 1946856753 585718673
4294967295 69501759 1503429036 1091279824 2129514251";

/// By the wires of the first gate among 256, 255, 253 and 251, the second number is told from all others below 2^31.
#[test]
fn first_draws(rt: HostRuntime) -> Result<(), Wrong> {
    each_row(rt.alloc(), DRAWS, "\n", is_of_draws)
}

/// The last operation was computed by a program of its own.
#[test]
fn longest_program(rt: HostRuntime) -> Result<(), Fail> {
    let text = drawn(rt.alloc(), 12, 20000, 64)?;
    let count = text.as_str().split(' ').count();
    assert!(rt; count == 20001 && text.as_str().ends_with(" u404.5 "));
    Ok(())
}
