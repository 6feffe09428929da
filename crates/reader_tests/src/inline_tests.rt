//! Texts with their operations and reads, worked by hand. Those that are refused are in `cases/angles.txt`.

ghost use Rattle.std.specs.Prelude.{◌<◌, ◌^◌};

use crate::check_tests::checked;
use crate::rows::sides;
use gate_expand::Ops;
use gate_inline::{InlineFault, Split, inline, inline_parts};
use std::alloc::{AllocError, Global};
use test_rows::{Wrong, each_row, small};
use unitary_model::Op;

/// What the program behind the two first lines is inlined to; none where it is refused.
fn inlined(alloc: Global, body: &str) -> Option<Ops> {
    let checked = checked(alloc, body)?;
    inline(alloc, &checked).ok()
}

/// The same in parts.
fn inlined_parts(alloc: Global, body: &str) -> Option<Split> {
    let checked = checked(alloc, body)?;
    inline_parts(alloc, &checked).ok()
}

/// The digit of a small number.
fn digit(number: u32) -> u8 {
    if number < 10 {
        b'0' + number as u8
    } else {
        b'?'
    }
}

/// An operation, as `104.0 ` or `cx01 `.
fn write_op(text: &mut Vec<u8>, op: Op) -> Result<(), AllocError> {
    match op {
        Op::U { a, b, c, q } => {
            let angles = [
                digit(u32::from(a)),
                digit(u32::from(b)),
                digit(u32::from(c)),
            ];
            text.extend_from_slice(&angles)?;
            text.extend_from_slice(&[b'.', digit(q), b' '])
        }
        Op::Cx { c, t } => text.extend_from_slice(&[b'c', b'x', digit(c), digit(t), b' ']),
    }
}

fn write_ops(text: &mut Vec<u8>, ops: &[Op]) -> Result<(), AllocError> {
    'ops: for op in ops {
        write_op(text, *op)?;
    }
    Ok(())
}

/// Reads, as `| 1 -`.
fn write_reads(text: &mut Vec<u8>, reads: &[Option<u32>]) -> Result<(), AllocError> {
    text.push(b'|')?;
    'reads: for read in reads {
        let wire = match read {
            Some(wire) => digit(*wire),
            None => b'-',
        };
        text.extend_from_slice(&[b' ', wire])?;
    }
    Ok(())
}

/// The wires of a barrier, as `<0 1> `.
fn write_barrier(text: &mut Vec<u8>, wires: &[u32]) -> Result<(), AllocError> {
    let mut before = b'<';
    'wires: for wire in wires {
        text.extend_from_slice(&[before, digit(*wire)])?;
        before = b' ';
    }
    text.extend_from_slice(b"> ")
}

/// The operations and reads, as `104.0 cx01 | 1 -`.
fn told_ops(alloc: Global, ops: &Ops) -> Result<Vec<u8>, AllocError> {
    let mut text = Vec::new(alloc);
    write_ops(&mut text, ops.list.as_slice())?;
    write_reads(&mut text, ops.reads.as_slice())?;
    Ok(text)
}

/// The same in parts, with the wires of the barriers between them, as `104.0 <0 1> cx01 | 1 -`.
fn told_split(alloc: Global, split: &Split) -> Result<Vec<u8>, AllocError> {
    let mut text = Vec::new(alloc);
    'parts: for (i, part) in split.parts.iter().enumerate() {
        write_ops(&mut text, part)?;
        if let Some(wires) = split.barriers.get(i) {
            write_barrier(&mut text, wires.wires())?;
        }
    }
    write_reads(&mut text, &split.reads)?;
    Ok(text)
}

fn is_inlined(alloc: Global, row: &str) -> Result<bool, AllocError> {
    let (body, wanted) = sides(row);
    match inlined(alloc, body) {
        Some(ops) => Ok(told_ops(alloc, &ops)?.as_slice() == wanted.as_bytes()),
        None => Ok(false),
    }
}

/// Programs behind the two first lines: exact angles, parameters and qubits in order of declaration, registers index by index, the
/// last read, and tables.
const OPERATIONS: &str = "\
- => |
qreg q[1]; U(pi/4,0,0) q[0]; => 100.0 |
qreg q[1]; u1(0.25*pi) q[0]; => 001.0 |
qreg q[1]; u1(-pi/2^2) q[0]; => 007.0 |
qreg q[1]; u1(-2^2*pi/16) q[0]; => 007.0 |
qreg q[1]; u1(2^-1*pi) q[0]; => 002.0 |
qreg q[1]; u1(-3*pi/4) q[0]; => 005.0 |
qreg q[1]; u1(2^62*pi) q[0]; => 000.0 |
gate g a,b { crz(pi/4) a,b; } qreg q[1]; t q[0]; => 001.0 |
gate g(x,y) a,b { U(x,0,y) b; CX b,a; U(y,0,0) a; } qreg q[2]; g(pi/4,pi/2) q[1],q[0]; => 102.0 cx01 200.1 |
qreg q[2]; qreg r[2]; cx q,r; => cx02 cx13 |
qreg q[2]; qreg r[2]; cx q[1],r; => cx12 cx13 |
qreg q[2]; h q; => 204.0 204.1 |
qreg q[2]; creg c[1]; measure q[0]->c[0]; h q[1]; measure q[1]->c[0]; => 204.1 | 1
qreg q[2]; creg c[2]; creg d[2]; measure q -> d; measure q[1] -> c[0]; => | 1 - 0 1
qreg q[1]; y q[0]; => 422.0 |
qreg q[2]; cz q[0],q[1]; => 204.1 cx01 204.1 |
qreg q[3]; cswap q[0],q[1],q[2]; => cx21 204.2 cx12 007.2 cx02 001.2 cx12 007.2 cx02 001.1 001.2 204.2 cx01 001.0 007.1 cx01 cx21 |
gate w(y) a { } \
gate g0(x0,x1,x2,x3,x4,x5,x6,x7,x8,x9,x10,x11,x12,x13,x14,x15,x16,x17,x18,x19) a { U(x0*pi/4,0,0) a; } \
gate g1(x0,x1,x2,x3,x4,x5,x6,x7,x8,x9,x10,x11,x12,x13,x14,x15,x16,x17,x18,x19) a { g0(x0,x1,x2,x3,x4,x5,x6,x7,x8,x9,x10,x11,x12,x13,x14,x15,x16,x17,x18,x19) a; g0(x0,x1,x2,x3,x4,x5,x6,x7,x8,x9,x10,x11,x12,x13,x14,x15,x16,x17,x18,x19) a; } \
gate g2(x0,x1,x2,x3,x4,x5,x6,x7,x8,x9,x10,x11,x12,x13,x14,x15,x16,x17,x18,x19) a { g1(x0,x1,x2,x3,x4,x5,x6,x7,x8,x9,x10,x11,x12,x13,x14,x15,x16,x17,x18,x19) a; g1(x0,x1,x2,x3,x4,x5,x6,x7,x8,x9,x10,x11,x12,x13,x14,x15,x16,x17,x18,x19) a; } \
qreg q[1]; g2(1,0,0,0,0,0,0,0,0,0,0,0,0,0,0,0,0,0,0,0) q[0]; => 100.0 100.0 100.0 100.0 |
gate w(y) a { } \
gate g0(x0,x1,x2,x3,x4,x5,x6,x7,x8,x9,x10,x11,x12,x13,x14,x15,x16,x17,x18,x19) a { U(x0*pi/4,0,0) a; } \
gate g1(x0,x1,x2,x3,x4,x5,x6,x7,x8,x9,x10,x11,x12,x13,x14,x15,x16,x17,x18,x19) a { g0(x0,x1,x2,x3,x4,x5,x6,x7,x8,x9,x10,x11,x12,x13,x14,x15,x16,x17,x18,x19) a; g0(x0+1,x1,x2,x3,x4,x5,x6,x7,x8,x9,x10,x11,x12,x13,x14,x15,x16,x17,x18,x19) a; } \
gate g2(x0,x1,x2,x3,x4,x5,x6,x7,x8,x9,x10,x11,x12,x13,x14,x15,x16,x17,x18,x19) a { g1(x0,x1,x2,x3,x4,x5,x6,x7,x8,x9,x10,x11,x12,x13,x14,x15,x16,x17,x18,x19) a; g1(x0+1,x1,x2,x3,x4,x5,x6,x7,x8,x9,x10,x11,x12,x13,x14,x15,x16,x17,x18,x19) a; } \
qreg q[1]; g2(1,0,0,0,0,0,0,0,0,0,0,0,0,0,0,0,0,0,0,0) q[0]; => 100.0 200.0 200.0 300.0 |
gate none(k) a { } gate once(k) a { none(k+k) a; U(0,0,0) a; } gate twice(k) a { once(k) a; once(k-1) a; } qreg q[1]; twice(2305843009213693952) q[0]; => 000.0 000.0 |
gate none(k) a { } gate once(k) a { U(0,0,0) a; none(k+k) a; } gate twice(k) a { once(k) a; once(k-1) a; } qreg q[1]; twice(1) q[0]; => 000.0 000.0 |";

#[test]
fn operations_by_hand(rt: HostRuntime) -> Result<(), Wrong> {
    each_row(rt.alloc(), OPERATIONS, "\n", is_inlined)
}

/// What a program is inlined to, as `104.0 cx01 | 1 -`, or the code of its refusal, as `! 42`.
fn told(alloc: Global, body: &str) -> Result<Vec<u8>, AllocError> {
    let mut text = Vec::new(alloc);
    let Some(checked) = checked(alloc, body) else {
        return Ok(text);
    };
    match inline(alloc, &checked) {
        Ok(ops) => return told_ops(alloc, &ops),
        Err(InlineFault::NoMemory) => {}
        Err(InlineFault::Refused(refused)) => {
            let code = refused.refusal.code();
            text.extend_from_slice(&[
                b'!',
                b' ',
                digit(u32::from(code / 10)),
                digit(u32::from(code % 10)),
            ])?;
        }
    }
    Ok(text)
}

fn is_told(alloc: Global, row: &str) -> Result<bool, AllocError> {
    let (body, wanted) = sides(row);
    Ok(told(alloc, body)?.as_slice() == wanted.as_bytes())
}

/// Expressions that are so long that their values are told by sums of the parameters, if no operation is refused. The values are
/// worked out by hand, and both kinds of answers are those of a plain program. In order: sums, minus, constants and
/// quotients; sums that are refused in the middle or just aren't, although they end small; products by 0, whose other side
/// counts; coefficients above 2^62; denominators above 2^62; divisors 0; of two refusals the first; no step; products of parameters; and
/// several calls, also of one gate.
const LONG: &str = "\
gate g(p) a { U(p+p+p+p+p+p+p+p+p+p+p+p+p+p+p+p,0,0) a; } qreg q[1]; g(pi/64) q[0]; => 100.0 |
gate g(p) a { U((p+p+p+p+p+p+p+p+p+p+p+p+p+p+p+p)/4,0,0) a; } qreg q[1]; g(3*pi/16) q[0]; => 300.0 |
gate g(p) a { U((p+p+p+p+p+p+p+p+p+p+p+p+p+p+p+p)/-4,0,0) a; } qreg q[1]; g(pi/16) q[0]; => 700.0 |
gate g(p) a { U((p+p+p+p+p+p+p+p)/3+2*(p+p+p+p+p+p+p+p)/3,0,0) a; } qreg q[1]; g(pi/16) q[0]; => 200.0 |
gate g(p) a { U(-(p+p+p+p+p+p+p+p)-(-(p+p+p+p+p+p+p+p))-(p-p)+pi/4,0,0) a; } qreg q[1]; g(1/3) q[0]; => 100.0 |
gate g(p,r) a { U(3*p+7*r-2+pi/4+(p+p+p+p+p+p+p+p)*0+(p+p+p+p+p+p+p+p)*0,0,0) a; } qreg q[1]; g(1/3,1/7) q[0]; => 100.0 |
gate g(p) a { U((p+p+p+p+p+p+p+p+p+p+p+p+p+p+p+p)/2.5-p*6.4+1/3-1/3+pi/4,0,0) a; } qreg q[1]; g(5/7) q[0]; => 100.0 |
gate g(p,r) a { U(2*(p+p+p+p+p+p+p+p)-(r+r+r+r+r+r+r+r)/2,0,0) a; } qreg q[1]; g(pi/8,pi/2) q[0]; => 000.0 |
gate g(p) a { U(p+p+p-p-p-p+0*(p+p+p+p+p+p+p+p+p+p+p+p+p+p+p+p)+pi/4,0,0) a; } qreg q[1]; g(2305843009213693952) q[0]; => ! 42
gate g(p) a { U(p-p+p-p+p-p+p-p+p-p+p-p+p-p+p-p+p-p+pi/4,0,0) a; } qreg q[1]; g(4611686018427387904) q[0]; => 100.0 |
gate g(p) a { U(p+p-p-p+p+p-p-p+p+p-p-p+p+p-p-p+pi/4,0,0) a; } qreg q[1]; g(2305843009213693952) q[0]; => 100.0 |
gate g(p) a { U(p+p-p-p+p+p-p-p+p+p-p-p+p+p-p-p+pi/4,0,0) a; } qreg q[1]; g(2305843009213693953) q[0]; => ! 42
gate g(p) a { U(0*(p+p+p+p+p+p+p+p+p+p+p+p+p+p+p+p)+pi/4,0,0) a; } qreg q[1]; g(288230376151711744) q[0]; => 100.0 |
gate g(p) a { U(0*(p+p+p+p+p+p+p+p+p+p+p+p+p+p+p+p)+pi/4,0,0) a; } qreg q[1]; g(288230376151711745) q[0]; => ! 42
gate g(p) a { U(4611686018427387904*(4611686018427387904*(p+p+p+p+p+p+p+p+p+p+p+p+p+p+p+p))+pi/4,0,0) a; } qreg q[1]; g(0) q[0]; => 100.0 |
gate g(p) a { U(4611686018427387904*(4611686018427387904*(p+p+p+p+p+p+p+p+p+p+p+p+p+p+p+p))+pi/4,0,0) a; } qreg q[1]; g(1/4611686018427387904) q[0]; => ! 42
gate g(p) a { U(4611686018427387904*((p+p+p+p+p+p+p+p+p+p+p+p+p+p+p+p)/4611686018427387904)+pi/4,0,0) a; } qreg q[1]; g(0) q[0]; => 100.0 |
gate g(p) a { U((p+p+p+p+p+p+p+p+p+p+p+p+p+p+p+p-15*p-p)/4611686018427387904/4611686018427387904+pi/4,0,0) a; } qreg q[1]; g(1) q[0]; => 100.0 |
gate g(p) a { U(p/2*2-p+0*(p+p+p+p+p+p+p+p+p+p+p+p+p+p+p+p)+pi/4,0,0) a; } qreg q[1]; g(1/4611686018427387904) q[0]; => ! 42
gate g(p) a { U(p/2*2-p+0*(p+p+p+p+p+p+p+p+p+p+p+p+p+p+p+p)+pi/4,0,0) a; } qreg q[1]; g(1/2305843009213693952) q[0]; => 100.0 |
gate g(p,r) a { U(p+r-p-r+0*(p+p+p+p+p+p+p+p+p+p+p+p+p+p+p+p)+pi/4,0,0) a; } qreg q[1]; g(1/2147483647,1/2147483649) q[0]; => 100.0 |
gate g(p,r) a { U(p+r-p-r+0*(p+p+p+p+p+p+p+p+p+p+p+p+p+p+p+p)+pi/4,0,0) a; } qreg q[1]; g(1/4294967295,1/4294967297) q[0]; => ! 42
gate g(p) a { U((p+p+p+p+p+p+p+p+p+p+p+p+p+p+p+p)/0,0,0) a; } qreg q[1]; g(pi) q[0]; => ! 41
gate g(p) a { U(0*((p+p+p+p+p+p+p+p+p+p+p+p+p+p+p+p)/0),0,0) a; } qreg q[1]; g(0) q[0]; => ! 41
gate g(p) a { U((p+p+p+p+p+p+p+p+p+p+p+p+p+p+p+p)*4611686018427387904+1/0,0,0) a; } qreg q[1]; g(1) q[0]; => ! 42
gate g(p) a { U(1/0+(p+p+p+p+p+p+p+p+p+p+p+p+p+p+p+p)*4611686018427387904,0,0) a; } qreg q[1]; g(1) q[0]; => ! 41
gate g(p) a { U((p+p+p+p+p+p+p+p+p+p+p+p+p+p+p+p)*4611686018427387904+sin(1),0,0) a; } qreg q[1]; g(1) q[0]; => ! 42
gate g(p) a { U((p+p+p+p+p+p+p+p+p+p+p+p+p+p+p+p)*4611686018427387904+sin(1),0,0) a; } qreg q[1]; g(0) q[0]; => ! 40
gate g(p) a { U(p+p+p+p+p+p+p+p+p+p+p+p+p+p+p+p,0,0) a; } qreg q[1]; g(pi/128) q[0]; => ! 43
gate g(p) a { U(p+p+p+p+p+p+p+p+p+p+p+p+p+p+p+p,0,0) a; } qreg q[1]; g(1) q[0]; => ! 43
gate g(p) a { U((p+p+p+p+p+p+p+p+p+p+p+p+p+p+p+p)*pi,0,0) a; } qreg q[1]; g(1/64) q[0]; => 100.0 |
gate g(p) a { U((p+p+p+p+p+p+p+p+p+p+p+p+p+p+p+p)*pi,0,0) a; } qreg q[1]; g(pi) q[0]; => ! 40
gate g(p) a { U(p*p*pi+0*(p+p+p+p+p+p+p+p+p+p+p+p+p+p+p+p),0,0) a; } qreg q[1]; g(1/2) q[0]; => 100.0 |
gate e(x,y) a { } gate g(p) a { e(p+p+p+p+p+p+p+p+p+p+p+p+p+p+p+p,1/p) a; } qreg q[1]; g(1) q[0]; g(288230376151711744) q[0]; g(0) q[0]; => ! 41
gate e(x,y) a { } gate g(p) a { e(p+p+p+p+p+p+p+p+p+p+p+p+p+p+p+p,1/(p-288230376151711744)) a; } qreg q[1]; g(1) q[0]; g(576460752303423488) q[0]; g(288230376151711744) q[0]; => ! 42
gate g(p,r) a { U(p+r+p+r+p+r+p+r+p+r+p+r+p+r+p+r,p,r+r+r+r+r+r+r+r+r+r+r+r+r+r+r+r-r-r-r-r-r-r-r-r-r-r-r-r-r-r-r-8*r) a; } qreg q[1]; g(pi/4,0) q[0]; g(0,pi/4) q[0]; g(pi/2,pi/4) q[0]; => 010.0 001.0 021.0 |";

#[test]
fn long_expressions(rt: HostRuntime) -> Result<(), Wrong> {
    each_row(rt.alloc(), LONG, "\n", is_told)
}

fn is_split(alloc: Global, row: &str) -> Result<bool, AllocError> {
    let (body, wanted) = sides(row);
    match inlined_parts(alloc, body) {
        Some(split) => Ok(told_split(alloc, &split)?.as_slice() == wanted.as_bytes()),
        None => Ok(false),
    }
}

/// The same in parts. No barrier; barriers before the first operation, behind the last and side by side, in order of first
/// naming, each once; barriers in bodies, which don't cut; calls that are remembered from an earlier part; registers, which stay
/// in one part; and measures.
const PARTS: &str = "\
- => |
qreg q[1]; h q; => 204.0 |
qreg q[2]; barrier q; h q[0]; => <0 1> 204.0 |
qreg q[2]; h q[0]; barrier q[1]; => 204.0 <1> |
qreg q[2]; barrier q[1]; => <1> |
qreg q[2]; h q[0]; barrier q[0]; barrier q[1]; h q[1]; => 204.0 <0> <1> 204.1 |
qreg q[3]; h q[0]; barrier q[1],q[0],q; h q[2]; => 204.0 <1 0 2> 204.2 |
qreg q[2]; qreg r[2]; barrier r,q[1],r[0],q; h r[1]; => <2 3 1 0> 204.3 |
qreg q[2]; barrier q[1]; barrier q[1],q[0]; barrier q; => <1> <1 0> <0 1> |
gate g a,b { h a; barrier a,b; h b; } qreg q[2]; g q[0],q[1]; => 204.0 204.1 |
gate g a { h a; t a; } qreg q[1]; g q[0]; barrier q; g q[0]; barrier q; g q[0]; => 204.0 001.0 <0> 204.0 001.0 <0> 204.0 001.0 |
qreg q[2]; qreg r[2]; cx q,r; barrier q; cx r,q; => cx02 cx13 <0 1> cx20 cx31 |
qreg q[2]; creg c[2]; h q[0]; measure q[0]->c[1]; barrier q; h q[1]; => 204.0 <0 1> 204.1 | - 0
qreg q[2]; creg c[2]; barrier q; measure q -> c; barrier q[0]; measure q[1] -> c[0]; => <0 1> <0> | 1 1";

#[test]
fn parts_by_hand(rt: HostRuntime) -> Result<(), Wrong> {
    each_row(rt.alloc(), PARTS, "\n", is_split)
}

/// Gates of which each applies the one before twice, so that the last is 2^16 operations, as many as a program may have.
const MOST: &str = "\
gate g0 a { U(0,0,0) a; } gate g1 a { g0 a; g0 a; } gate g2 a { g1 a; g1 a; } gate g3 a { g2 a; g2 a; } \
gate g4 a { g3 a; g3 a; } gate g5 a { g4 a; g4 a; } gate g6 a { g5 a; g5 a; } gate g7 a { g6 a; g6 a; } \
gate g8 a { g7 a; g7 a; } gate g9 a { g8 a; g8 a; } gate g10 a { g9 a; g9 a; } gate g11 a { g10 a; g10 a; } \
gate g12 a { g11 a; g11 a; } gate g13 a { g12 a; g12 a; } gate g14 a { g13 a; g13 a; } \
gate g15 a { g14 a; g14 a; } gate g16 a { g15 a; g15 a; } qreg q[1]; g16 q[0];";

/// Whether there is one part, with so many operations.
fn has_most(alloc: Global, count: &str) -> Result<bool, AllocError> {
    match inlined_parts(alloc, MOST) {
        Some(split) => match split.parts.as_slice() {
            [part] => Ok(part.len() == small(count, 0) as usize),
            _ => Ok(false),
        },
        None => Ok(false),
    }
}

#[test]
fn as_many_operations_as_may_be(rt: HostRuntime) -> Result<(), Wrong> {
    each_row(rt.alloc(), "65536", "\n", has_most)
}
