//! Small cases of each rule, worked by hand.

use angle_fraction::{Angle, AngleFault, Frac, add, div, eighths, lowest, mul, neg, pow, sub};
use std::alloc::{AllocError, Global};
use test_rows::{Wrong, each_row, small, word};

/// The number of a text, or one that no row has.
fn large(text: &str) -> i128 {
    text.parse::<i128>().unwrap_or(7777)
}

/// The fraction of a text, as `5/6` or `-2`.
fn fraction(text: &str) -> Option<Frac> {
    let (num, den) = text.split_once('/').unwrap_or((text, "1"));
    let den = large(den);
    if den <= 0 {
        return None;
    }
    lowest(large(num), den).ok()
}

/// The angle of a plain fraction and a fraction of pi, as `1/2,0`.
fn angle(text: &str) -> Option<Angle> {
    let (plain, pis) = text.split_once(',')?;
    Some(Angle {
        plain: fraction(plain)?,
        pis: fraction(pis)?,
    })
}

/// What a rule gives of two angles.
fn found(rule: &str, a: &Angle, b: &Angle) -> Result<Angle, AngleFault> {
    if rule == "add" {
        add(a, b)
    } else if rule == "sub" {
        sub(a, b)
    } else if rule == "mul" {
        mul(a, b)
    } else if rule == "div" {
        div(a, b)
    } else if rule == "pow" {
        pow(a, b)
    } else {
        neg(a)
    }
}

/// Whether this is found: an angle, or a fault.
fn is_found(found: Result<Angle, AngleFault>, wanted: &str) -> bool {
    match found {
        Ok(found) => angle(wanted) == Some(found),
        Err(AngleFault::Form) => wanted == "Form",
        Err(AngleFault::ZeroDivisor) => wanted == "ZeroDivisor",
        Err(AngleFault::Range) => wanted == "Range",
    }
}

fn is_row(_alloc: Global, row: &str) -> Result<bool, AllocError> {
    match (angle(word(row, 1)), angle(word(row, 2))) {
        (Some(a), Some(b)) => Ok(is_found(found(word(row, 0), &a, &b), word(row, 3))),
        _ => Ok(false),
    }
}

/// A rule, two angles, and what comes out; `neg` looks at the first alone.
const RULES: &str = "\
add 1/2,0 1/3,0 5/6,0
add 1,1/4 0,1 1,5/4
sub 1/2,0 1/3,0 1/6,0
neg 1,1/4 0,0 -1,-1/4
mul 1/2,0 1,1/4 1/2,1/8
mul 0,1 1,1/4 Form
div 0,2 0,1 2,0
div 1,1/4 1/2,0 2,1/2
div 0,0 0,1 0,0
div 0,0 1,1/4 Form
div 1/2,0 0,1 Form
div 0,1 0,0 ZeroDivisor
sub 4611686018427387904,0 1,0 4611686018427387903,0
add 4611686018427387904,0 0,0 4611686018427387904,0
add 4611686018427387904,0 1,0 Range
pow 3/2,0 2,0 9/4,0
pow 3/2,0 -2,0 4/9,0
pow -2,0 -1,0 -1/2,0
pow -1,0 4611686018427387904,0 1,0
pow 0,0 4611686018427387904,0 0,0
pow 0,0 0,0 1,0
pow 0,0 -1,0 ZeroDivisor
pow 0,1 1,0 0,1
pow 0,1 0,0 1,0
pow 0,1 2,0 Form
pow 2,0 3/2,0 Form
pow 2,0 62,0 4611686018427387904,0
pow 2,0 63,0 Range
pow 3/2,0 4611686018427387904,0 Range";

#[test]
fn sums_products_and_powers(rt: HostRuntime) -> Result<(), Wrong> {
    each_row(rt.alloc(), RULES, "\n", is_row)
}

fn has_eighths(_alloc: Global, row: &str) -> Result<bool, AllocError> {
    let Some(angle) = angle(word(row, 0)) else {
        return Ok(false);
    };
    match eighths(&angle) {
        Some(found) => Ok(u32::from(found) == small(row, 1)),
        None => Ok(word(row, 1) == "none"),
    }
}

/// An angle, and how many eighths of a turn it is, modulo 8.
const EIGHTHS: &str = "\
0,-9/4 7
0,-8/4 0
0,-7/4 1
0,-3/4 5
0,-1/4 7
0,0/4 0
0,1/4 1
0,7/4 7
0,8/4 0
0,9/4 1
0,1/3 none
7853981633974483/10000000000000000,0 none
1,1/4 none
0,4611686018427387904 0";

#[test]
fn eighths_of_turns(rt: HostRuntime) -> Result<(), Wrong> {
    each_row(rt.alloc(), EIGHTHS, "\n", has_eighths)
}
