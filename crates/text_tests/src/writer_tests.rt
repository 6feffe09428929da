//! Texts of programs, worked by hand, and what of one comes to a sink that fails.

ghost use Rattle.std.specs.Prelude.{◌≡◌, IfOk};

use circuit_list::{Circuit, Gate};
use gate_inline::Barrier;
use outside_io::MemSink;
use qasm_writer::output::{Output, Register};
use qasm_writer::{PieceBuffer, program_text, write_program};
use std::alloc::{AllocError, Global};
use test_rows::{Wrong, each_row, field, number, small, word};

const HEAD: &str = "OPENQASM 2.0;\ninclude \"qelib1.inc\";\n";

/// Whether a text is the header and some lines.
fn is_program(alloc: Global, text: &[u8], lines: &str) -> Result<bool, AllocError> {
    let mut wanted = String::from_str(alloc, HEAD)?;
    wanted.push_str(lines)?;
    Ok(text == wanted.as_bytes())
}

/// The text of a circuit without bits, and of a trace.
fn bare_text(alloc: Global, body: &Circuit, trace: &[u8]) -> Result<Vec<u8>, AllocError> {
    let output = Output {
        body,
        registers: &[],
        reads: &[],
        lengths: &[body.len()],
        barriers: &[],
        trace,
    };
    program_text(alloc, &output)
}

/// A circuit on twelve wires whose text is longer than four pieces.
fn long_body(alloc: Global) -> Result<Circuit, AllocError>
    ensures { IfOk result (λ c. c.wires ≡ 12) }
{
    let mut body = Circuit::empty(alloc, 12)?;
    'gates: for _ in 0..1_030 {
        body.push(Gate::P { k: 3, q: 11 })?;
    }
    Ok(body)
}

/// Whether the text of a circuit is sent.
fn sends(
    body: &Circuit,
    buffer: &mut PieceBuffer,
    line: &mut PieceBuffer,
    sink: &mut MemSink,
) -> bool {
    let output = Output {
        body,
        registers: &[],
        reads: &[],
        lengths: &[body.len()],
        barriers: &[],
        trace: b"",
    };
    write_program(&output, buffer, line, sink).is_ok()
}

/// Whether so much of the text of a circuit comes to a sink as a row says.
fn is_sent(alloc: Global, body: &Circuit, text: &[u8], row: &str) -> Result<bool, AllocError> {
    let held = number(row, 2) as usize;
    if held > text.len() {
        return Ok(false);
    }
    let failing = Vec::from_slice(alloc, &[number(row, 0)])?;
    let mut sink = MemSink::new(alloc, 20_000, 4_096, failing)?;
    let mut buffer = PieceBuffer::new(alloc)?;
    let mut line = PieceBuffer::new(alloc)?;
    let is_whole = sends(body, &mut buffer, &mut line, &mut sink) == (word(row, 1) == "sent");
    // again with the same buffer, to a sink that takes all
    let mut all = MemSink::new(alloc, 20_000, 20_000, Vec::new(alloc))?;
    Ok(
        is_whole
            && sink.as_slice() == &text[..held]
            && sink.calls() == number(row, 3)
            && sends(body, &mut buffer, &mut line, &mut all)
            && all.as_slice() == text,
    )
}

/// The same of the long circuit, whose text is the header, and 18 bytes for each gate.
fn is_long_sent(alloc: Global, row: &str) -> Result<bool, AllocError> {
    let body = long_body(alloc)?;
    let text = bare_text(alloc, &body, b"")?;
    Ok(text.len() == 48 + 18 * 1_030 && is_sent(alloc, &body, &text, row)?)
}

/// Failing call, whether all was sent, bytes that came, calls.
const SENDS: &str = "\
0 sent 18588 5
1 fails 0 1
2 fails 4096 2
3 fails 8192 3
4 fails 12288 4
5 fails 16384 5
6 sent 18588 5";

#[test]
fn sends_whole_pieces_and_the_rest(rt: HostRuntime) -> Result<(), Wrong> {
    each_row(rt.alloc(), SENDS, "\n", is_long_sent)
}

/// Whether the trace of a row is written as its comments after a program.
fn is_commented(alloc: Global, row: &str) -> Result<bool, AllocError> {
    let mut body = Circuit::empty(alloc, 1)?;
    body.push(Gate::X { q: 0 })?;
    let text = bare_text(alloc, &body, field(row, 0).as_bytes())?;
    let mut lines = String::from_str(alloc, "qreg q[1];\nx q[0];\n")?;
    lines.push_str(field(row, 1))?;
    is_program(alloc, &text, lines.as_str())
}

/// Traces, and their comments. Rows stand apart by a line of dots.
const TRACES: &str = "|\
\n....\nTRACE 1\nend 0 0\n|//!TRACE 1\n//!end 0 0\n\
\n....\none\n\nthree\n|//!one\n//!\n//!three\n\
\n....\none\ntwo|//!one\n//!two\n\
\n....\n\r\n//!\"{\t\n|//!\r\n//!//!\"{\t\n";

#[test]
fn writes_a_trace_behind_the_program(rt: HostRuntime) -> Result<(), Wrong> {
    each_row(rt.alloc(), TRACES, "\n....\n", is_commented)
}

/// The text of a circuit on two wires, all of it in the second of six parts.
fn parts_text(alloc: Global, body: &Circuit) -> Result<Vec<u8>, AllocError>
    requires { body.now.wires ≡ 2 }
{
    let barriers = [
        Barrier::new(alloc, Vec::from_slice(alloc, &[0])?)?,
        Barrier::new(alloc, Vec::from_slice(alloc, &[1, 0, 1])?)?,
        Barrier::new(alloc, Vec::from_slice(alloc, &[1, 0, 1])?)?,
        Barrier::new(alloc, Vec::from_slice(alloc, &[0, 1])?)?,
        Barrier::new(alloc, Vec::from_slice(alloc, &[1])?)?,
    ];
    let output = Output {
        body,
        registers: &[],
        reads: &[],
        lengths: &[0, body.len(), 0, 0, 0, 0],
        barriers: &barriers,
        trace: b"",
    };
    program_text(alloc, &output)
}

fn are_parts(alloc: Global, lines: &str) -> Result<bool, AllocError> {
    let mut body = Circuit::empty(alloc, 2)?;
    body.push(Gate::X { q: 0 })?;
    let text = parts_text(alloc, &body)?;
    is_program(alloc, &text, lines)
}

#[test]
fn writes_parts_without_gates(rt: HostRuntime) -> Result<(), Wrong> {
    let lines =
        "qreg q[2];\nbarrier q[0];\nx q[0];\nbarrier q[1],q[0],q[1];\nbarrier q[1],q[0],q[1];\nbarrier q[0],q[1];\nbarrier q[1];\n";
    each_row(rt.alloc(), lines, "\n\n", are_parts)
}

/// The text of the long circuit with a barrier before its last thirty gates, and a bit that reads a wire.
fn later_text(alloc: Global, body: &Circuit) -> Result<Vec<u8>, AllocError>
    requires { body.now.wires ≡ 12 }
{
    let barriers = [Barrier::new(alloc, Vec::from_slice(alloc, &[11, 0])?)?];
    let last = body.len().min(30);
    let output = Output {
        body,
        registers: &[Register {
            name: b"q",
            size: 1,
        }],
        reads: &[Some(11)],
        lengths: &[body.len() - last, last],
        barriers: &barriers,
        trace: b"",
    };
    program_text(alloc, &output)
}

/// A gate's line, so many times.
fn write_gates(lines: &mut String, gates: usize) -> Result<(), AllocError> {
    'gates: for _ in 0..gates {
        lines.push_str("u1(3*pi/4) q_[11];\n")?;
    }
    Ok(())
}

/// The lines of that text.
fn write_later(lines: &mut String) -> Result<(), AllocError> {
    lines.push_str("qreg q_[12];\ncreg q[1];\n")?;
    write_gates(lines, 1_000)?;
    lines.push_str("barrier q_[11],q_[0];\n")?;
    write_gates(lines, 30)?;
    lines.push_str("measure q_[11] -> q[0];\n")
}

/// Whether that text has these lines, if its long circuit has so many gates.
fn is_later(alloc: Global, gates: &str) -> Result<bool, AllocError> {
    let body = long_body(alloc)?;
    let text = later_text(alloc, &body)?;
    let mut lines = String::new(alloc);
    write_later(&mut lines)?;
    Ok(body.len() == small(gates, 0) as usize && is_program(alloc, &text, lines.as_str())?)
}

#[test]
fn writes_a_barrier_in_a_later_piece(rt: HostRuntime) -> Result<(), Wrong> {
    each_row(rt.alloc(), "1030", "\n", is_later)
}
