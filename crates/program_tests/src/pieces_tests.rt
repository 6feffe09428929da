//! Texts that come and go in pieces: what has gone out where a call fails, and one byte a call.

use crate::runs_tests::{Case, HEAD, run_case};
use std::alloc::{AllocError, Global};
use test_rows::{Wrong, each_row, number, small};

/// Gates on 64 wires that no pass finds anything to do with, as they are written.
fn many_gates(alloc: Global) -> Result<String, AllocError> {
    let mut text = String::from_str(alloc, HEAD)?;
    text.push_str("qreg q[64];\n")?;
    'gates: for place in 0..512u32 {
        let name = if place / 64 % 2 == 0 { "h" } else { "t" };
        write!(text, "{name} q[{}];\n", place % 64)?;
    }
    Ok(text)
}

const FAILED: &str = "{\"fault\":\"Output\",\"status\":6}\n";

/// Whether a text that `opt` writes as it is goes out whole, and whether its first 4,096 bytes do where the second call fails.
fn keeps_piece(alloc: Global, text: &str, most: usize) -> Result<bool, AllocError> {
    let case = Case {
        words: "qroute opt",
        text: text.as_bytes(),
        shelf: "d\n",
        fails: [0, 1, 0, 0],
        most: [64, most, 9999],
    };
    let whole = run_case(alloc, case)?;
    let fails = [0, 1, 2, 0];
    let got = run_case(alloc, Case { fails, ..case })?;
    let told = str::from_utf8(whole.report.as_slice()).unwrap_or("");
    Ok(
        whole.status == 0
            && whole.out.as_slice() == text.as_bytes()
            && told.contains("\"t_after\":256,\"t_before\":256}")
            && got.status == 6
            && got.out.as_slice().len() == 4096
            && whole.out.as_slice().starts_with(got.out.as_slice())
            && got.report.as_slice() == FAILED.as_bytes(),
    )
}

/// The same of a text of 4,576 bytes, if the output takes so many bytes a call.
fn keeps_pieces(alloc: Global, most: &str) -> Result<bool, AllocError> {
    let text = many_gates(alloc)?;
    Ok(text.len() == 4576 && keeps_piece(alloc, text.as_str(), small(most, 0) as usize)?)
}

/// A program of 4,576 bytes goes out in two pieces. If the second call fails, the first piece has come, however much more the
/// output would take.
#[test]
fn keeps_the_piece_that_came(rt: HostRuntime) -> Result<(), Wrong> {
    each_row(rt.alloc(), "4096 9999", " ", keeps_pieces)
}

/// A program with each kind of statement, a line for each.
const KINDS: &str = r#"OPENQASM 2.0;
include "qelib1.inc";
gate g(x) a,b { u1(x) a; cx a,b; }
qreg q[2];
creg c[2];
g(pi/4) q[0],q[1];
barrier q;
measure q -> c;
"#;

/// Whether one byte a call, in and out, changes neither the status nor the texts.
fn moves_bytes<'a>(alloc: Global, words: &'a str, text: &'a str) -> Result<bool, AllocError> {
    let case = Case {
        words,
        text: text.as_bytes(),
        shelf: "d\nqubits = 2\nedges = [[1, 0]]\n",
        fails: [0, 0, 0, 0],
        most: [64, 16, 9999],
    };
    let want = run_case(alloc, case)?;
    let most = [1, 1, 1];
    let got = run_case(alloc, Case { most, ..case })?;
    Ok(
        got.status == want.status
            && got.out.as_slice() == want.out.as_slice()
            && got.report.as_slice() == want.report.as_slice(),
    )
}

/// The same of three texts, by the words of a command.
fn moves_all(alloc: Global, words: &str) -> Result<bool, AllocError> {
    Ok(
        moves_bytes(alloc, words, KINDS)?
            && moves_bytes(alloc, words, HEAD)?
            && moves_bytes(alloc, words, "OPENQASM")?,
    )
}

/// The words of each command.
const EACH: &str = "\
qroute opt
qroute check
qroute stages
qroute amplitude --from 1 --to 1
qroute route --device d --trivial
qroute bench --start 1 --gates 1 --device d";

#[test]
fn moves_one_byte_a_call(rt: HostRuntime) -> Result<(), Wrong> {
    each_row(rt.alloc(), EACH, "\n", moves_all)
}

/// Whether a text of so many spaces is refused, with so many of them left.
fn leaves(alloc: Global, row: &str) -> Result<bool, AllocError> {
    let text = vec![in alloc; b' '; (small(row, 0) as usize).min(5_000_000)]?;
    let case = Case {
        words: "qroute opt",
        text: &text,
        shelf: "d\n",
        fails: [0, 0, 0, 0],
        most: [64, 16, 9999],
    };
    let got = run_case(alloc, case)?;
    Ok(got.status == 3 && got.input.rest().len() == small(row, 1) as usize)
}

/// The input isn't read past the limit and one byte: how many there are, and how many are left.
#[test]
fn leaves_what_is_too_long(rt: HostRuntime) -> Result<(), Wrong> {
    each_row(rt.alloc(), "4194304 0\n4194305 0\n4194400 95", "\n", leaves)
}

const TOFFOLI: Case<'static> = Case {
    words: "qroute route --device d --trace",
    text: b"OPENQASM 2.0;\ninclude \"qelib1.inc\";\nqreg q[3]; creg c[3]; ccx q[0],q[1],q[2]; measure q -> c;",
    shelf: "d\nqubits = 4\nedges = [[0, 1], [1, 0], [1, 2], [2, 1], [2, 3], [3, 2]]\n",
    fails: [0, 2, 0, 0],
    most: [64, 16, 9999],
};

/// Whether a prefix of the whole output has come where this call fails.
fn keeps_prefix(alloc: Global, whole: &[u8], call: u64) -> Result<bool, AllocError> {
    let fails = [0, 2, call, 0];
    let got = run_case(alloc, Case { fails, ..TOFFOLI })?;
    Ok(
        got.status == 6
            && got.out.as_slice().len() < whole.len()
            && whole.starts_with(got.out.as_slice())
            && got.report.as_slice() == FAILED.as_bytes(),
    )
}

/// The same of each call below one.
fn keeps_prefixes(alloc: Global, calls: &str) -> Result<bool, AllocError> {
    let whole = run_case(alloc, TOFFOLI)?;
    'calls: for call in 1..number(calls, 0) {
        if !keeps_prefix(alloc, whole.out.as_slice(), call)? {
            return Ok(false);
        }
    }
    Ok(whole.status == 0)
}

/// Where the output fails in a program or in its trace, a prefix of both has come.
#[test]
fn keeps_what_came_of_a_trace(rt: HostRuntime) -> Result<(), Wrong> {
    each_row(rt.alloc(), "30", "\n", keeps_prefixes)
}
