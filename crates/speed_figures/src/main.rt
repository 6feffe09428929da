//! Programs whose time and memory are measured: long circuits, many rows and square matrices.
//!
//! The first word of the command line names one of them, and out comes one line with a count, so that nothing is left out.
//! Without a word each of them is run, on a small input. `bench/run --parts` tells the time and the memory of each.
#![tactic(auto)]

ghost use Rattle.std.specs.Prelude.{◌<◌};

mod circuits;
mod draws;
mod rows;

use std::alloc::{AllocError, Global};
use std::{env, io};

/// Gates of a long circuit.
const GATES: usize = 300_000;

/// Rows on 64 wires, and the numbers of the rows on 16 wires.
const ROWS: u32 = 65_536;

/// How often a matrix is inverted, rows completed, and pairs found.
const MATRICES: usize = 100;

fn main(rt: HostRuntime) -> Result<(), io::Error> {
    let mut words = env::args(&rt)?;
    let _program = words.next();
    match words.next() {
        Some(word) => println!(rt;
            "{}",
            count_of(rt.alloc(), word.as_str(), GATES, ROWS, MATRICES)?
        ),
        None => println!(rt; "{}", small_counts(rt.alloc())?),
    }
}

/// The counts of all programs on small inputs.
fn small_counts(alloc: Global) -> Result<usize, AllocError> {
    let mut sum = 0usize;
    for word in [
        "push", "slots", "places", "rows64", "rows16", "counted", "matrices",
    ] {
        sum = sum.saturating_add(count_of(alloc, word, 100, 64, 1)?);
    }
    Ok(sum)
}

/// The count that a program ends with: the gates that are left, the blocks, or the pairs; 0 for another word.
fn count_of(
    alloc: Global,
    word: &str,
    gates: usize,
    count: u32,
    times: usize,
) -> Result<usize, AllocError>
    requires { 0 < count }
{
    match word {
        "push" => circuits::pushed_count(alloc, gates),
        "slots" => circuits::left_by_slots(alloc, gates),
        "places" => circuits::left_by_places(alloc, gates),
        "rows64" => rows::blocks_of_drawn(alloc, count),
        "rows16" => rows::blocks_of_scattered(alloc, count),
        "counted" => rows::blocks_of_counted(alloc, count),
        "matrices" => rows::pairs_of_matrices(alloc, times),
        _ => Ok(0),
    }
}
