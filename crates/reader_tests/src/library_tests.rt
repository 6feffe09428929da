//! The gate tables against the listing, and names at their borders.

use angle_fraction::Binary;
use gate_library::{
    BoundGate, Formula, Item, gates, is_in_table, is_standard, names_repeat, own_number,
    standard_names,
};
use std::alloc::{AllocError, Global};
use test_rows::{Wrong, each_row, field, number, small, word};

/// The name of an index in a list of names of one letter.
fn letter(names: &[u8], index: usize) -> u8 {
    match names.get(index.saturating_mul(2)) {
        Some(letter) => *letter,
        None => b'?',
    }
}

/// A number, pi or a parameter.
fn write_part(text: &mut Vec<u8>, params: &[u8], part: &Formula) -> Result<(), AllocError> {
    match part {
        Formula::Number(number) => match (number.num(), number.den()) {
            (0, 1) => text.extend_from_slice(b"0"),
            (2, 1) => text.extend_from_slice(b"2"),
            (4, 1) => text.extend_from_slice(b"4"),
            _ => text.extend_from_slice(b"?"),
        },
        Formula::Pi => text.extend_from_slice(b"pi"),
        Formula::Param(index) => text.extend_from_slice(&[letter(params, *index)]),
        _ => text.extend_from_slice(b"?"),
    }
}

/// A part, or one with a minus.
fn write_signed(text: &mut Vec<u8>, params: &[u8], formula: &Formula) -> Result<(), AllocError> {
    match formula {
        Formula::Neg(part) => {
            text.push(b'-')?;
            write_part(text, params, part)
        }
        _ => write_part(text, params, formula),
    }
}

/// Such a one, or one divided by a part.
fn write_angle(text: &mut Vec<u8>, params: &[u8], angle: &Formula) -> Result<(), AllocError> {
    match angle {
        Formula::Binary {
            sign: Binary::Div,
            sides,
        } => {
            write_signed(text, params, &sides.left)?;
            text.push(b'/')?;
            write_part(text, params, &sides.right)
        }
        _ => write_signed(text, params, angle),
    }
}

/// Each gate of the tables as a listing has it: its number, name, parameters, qubits and body.
const TABLES: &str = "\
2|u3|t,p,l|q|U(t,p,l) q;
3|u2|p,l|q|U(pi/2,p,l) q;
4|u1|l|q|U(0,0,l) q;
5|cx||c,t|CX c,t;
6|id||a|U(0,0,0) a;
7|x||a|u3(pi,0,pi) a;
8|y||a|u3(pi,pi/2,pi/2) a;
9|z||a|u1(pi) a;
10|h||a|u2(0,pi) a;
11|s||a|u1(pi/2) a;
12|sdg||a|u1(-pi/2) a;
13|t||a|u1(pi/4) a;
14|tdg||a|u1(-pi/4) a;
15|rx|t|a|u3(t,-pi/2,pi/2) a;
16|ry|t|a|u3(t,0,0) a;
17|rz|p|a|u1(p) a;
18|cz||a,b|h b; cx a,b; h b;
19|cy||a,b|sdg b; cx a,b; s b;
20|ch||a,b|h b; sdg b; cx a,b; h b; t b; cx a,b; t b; h b; s b; x b; s a;
21|ccx||a,b,c|h c; cx b,c; tdg c; cx a,c; t c; cx b,c; tdg c; cx a,c; t b; t c; h c; cx a,b; t a; tdg b; cx a,b;
22|crz|l|a,b|u1(l/2) b; cx a,b; u1(-l/2) b; cx a,b;
23|cu1|l|a,b|u1(l/2) a; cx a,b; u1(-l/2) b; cx a,b; u1(l/2) b;
24|u|t,p,l|q|U(t,p,l) q;
25|p|l|q|U(0,0,l) q;
26|cp|l|a,b|u1(l/2) a; cx a,b; u1(-l/2) b; cx a,b; u1(l/2) b;
27|swap||a,b|cx a,b; cx b,a; cx a,b;
28|cswap||a,b,c|cx c,b; ccx a,b,c; cx c,b;
29|sx||a|sdg a; h a; sdg a;
30|sxdg||a|s a; h a; s a;";

/// The name that stands for a gate of this number behind an include, among those of the rows.
fn gate_name(number: usize) -> &'static str {
    if number == 0 {
        return "U";
    }
    let row = TABLES.split('\n').nth(number.saturating_sub(2));
    if number == 1 {
        "CX"
    } else {
        field(row.unwrap_or("?"), 1)
    }
}

/// A line of a body, with these names of parameters and qubits.
fn write_item(
    text: &mut Vec<u8>,
    item: &Item,
    params: &[u8],
    qubits: &[u8],
) -> Result<(), AllocError> {
    let Item::Call {
        gate,
        angles,
        qubits: indices,
    } = item
    else {
        return text.extend_from_slice(b"barrier");
    };
    text.extend_from_slice(gate_name(*gate).as_bytes())?;
    let mut before = b'(';
    for angle in angles.as_slice() {
        text.push(before)?;
        write_angle(text, params, angle)?;
        before = b',';
    }
    if before == b',' {
        text.push(b')')?;
    }
    let mut before = b' ';
    for index in indices.as_slice() {
        text.push(before)?;
        text.push(letter(qubits, *index))?;
        before = b',';
    }
    text.push(b';')?;
    Ok(())
}

/// A gate's body, with these names.
fn spelt(
    alloc: Global,
    body: &[Item],
    params: &[u8],
    qubits: &[u8],
) -> Result<Vec<u8>, AllocError> {
    let mut text = Vec::new(alloc);
    for item in body {
        if !text.is_empty() {
            text.push(b' ')?;
        }
        write_item(&mut text, item, params, qubits)?;
    }
    Ok(text)
}

/// Whether the standard names have this name at this place, if they go so far.
fn is_standard_at(index: usize, name: &str) -> bool {
    match standard_names().get(index) {
        Some(listed) => *listed == name.as_bytes(),
        None => index >= 22,
    }
}

/// How many names of one letter a field has.
fn names_in(field: &str) -> usize {
    field.len().div_ceil(2)
}

/// Whether a gate is that of its row.
fn is_spelt(alloc: Global, gate: &BoundGate, row: &str) -> Result<bool, AllocError> {
    let (listed, wires) = (field(row, 2), field(row, 3));
    let BoundGate::Composed {
        params,
        qubits,
        body,
    } = gate
    else {
        return Ok(false);
    };
    let text = spelt(alloc, body, listed.as_bytes(), wires.as_bytes())?;
    Ok(
        *params == names_in(listed)
            && *qubits == names_in(wires)
            && text.as_slice() == field(row, 4).as_bytes(),
    )
}

/// Whether the gate of a row stands at its place, by its number and among the standard names.
fn is_listed(alloc: Global, row: &str) -> Result<bool, AllocError> {
    let (place, name) = (small(field(row, 0), 0) as usize, field(row, 1));
    let gates = gates(alloc)?;
    let Some(gate) = gates.get(place) else {
        return Ok(false);
    };
    Ok(
        own_number(true, name.as_bytes()) == Some(place)
            && is_standard_at(place.saturating_sub(2), name)
            && is_spelt(alloc, gate, row)?,
    )
}

#[test]
fn tables(rt: HostRuntime) -> Result<(), Wrong> {
    each_row(rt.alloc(), TABLES, "\n", is_listed)
}

fn is_named(_alloc: Global, row: &str) -> Result<bool, AllocError> {
    let name = word(row, 2).as_bytes();
    Ok(is_in_table(name) == (word(row, 0) == "yes") && is_standard(name) == (word(row, 1) == "yes"))
}

/// Whether the tables have a name, whether the first of them has it, and the name; the last one is empty.
const NAMES: &str = "\
yes yes u3
yes yes crz
yes yes cu1
yes no u
yes no sxdg
no no U
no no CX
no no CU1
no no -";

#[test]
fn names(rt: HostRuntime) -> Result<(), Wrong> {
    each_row(rt.alloc(), NAMES, "\n", is_named)
}

fn is_own(_alloc: Global, row: &str) -> Result<bool, AllocError> {
    match own_number(word(row, 0) == "include", word(row, 1).as_bytes()) {
        Some(found) => Ok(found as u64 == number(row, 2)),
        None => Ok(word(row, 2) == "none"),
    }
}

/// The numbers of gates that need no declaration, before an include and behind it.
const OWN_NUMBERS: &str = "\
plain U 0
plain CX 1
plain u3 none
include u3 2
include sxdg 30
include nosuch none";

#[test]
fn own_numbers(rt: HostRuntime) -> Result<(), Wrong> {
    each_row(rt.alloc(), OWN_NUMBERS, "\n", is_own)
}

/// Whether the tables have so many gates and standard names, and gates 2 and 30 are what they are.
fn are_shaped(alloc: Global, row: &str) -> Result<bool, AllocError> {
    let gates = gates(alloc)?;
    let is_counted = gates.len() as u64 == number(row, 0)
        && standard_names().len() as u64 == number(row, 1);
    match (gates.get(2), gates.get(30)) {
        (Some(first), Some(last)) => Ok(
            is_counted && first.params() == 3 && last.qubits() == 1 && !last.is_opaque(),
        ),
        _ => Ok(false),
    }
}

#[test]
fn shapes(rt: HostRuntime) -> Result<(), Wrong> {
    each_row(rt.alloc(), "31 22", "\n", are_shaped)
}

/// Whether one of the letters of a row stands twice exactly where the row says so.
fn repeats(alloc: Global, row: &str) -> Result<bool, AllocError> {
    let mut names = Vec::new(alloc);
    'letters: for letter in word(row, 0).as_bytes().chunks(1) {
        names.push(letter)?;
    }
    Ok(names_repeat(alloc, &names)? == (word(row, 1) == "yes"))
}

/// Names of one letter, and whether one stands twice: looked at one by one, and by a set from the ninth on.
const REPEATS: &str = "\
a no
aa yes
ab no
aba yes
abc no
abca yes
abcd no
abcda yes
abcde no
abcdea yes
abcdef no
abcdefa yes
abcdefg no
abcdefga yes
abcdefgh no
abcdefgha yes
abcdefghi no
abcdefghia yes
abcdefghij no
abcdefghija yes
abcdefghijk no
abcdefghijka yes";

#[test]
fn repeated_names(rt: HostRuntime) -> Result<(), Wrong> {
    each_row(rt.alloc(), REPEATS, "\n", repeats)
}
