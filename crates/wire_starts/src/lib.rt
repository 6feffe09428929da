//! Where the wires of a program begin: where that is told, and the starts from which a layout is looked for.
//!
//! In goes the list of the qubits on which a program's wires are to begin, wire 0's first; out comes the placement of all wires of
//! a device: the list, and behind it the qubits that are left, ascending, for the spare wires. Whether a list fits a program and a
//! device is a word of `specs/Starts.antt`, which the caller tests. In goes a device, too, with a number; out comes the start of
//! that number. A device has one of each ([`laws`]).
#![tactic(auto)]

ghost use Rattle.std.specs.Prelude.{◌≡◌, ◌<◌, All, IfOk, false, length, nat_eq, true};
ghost use Rattle.std.specs.List.{IsDistinct};
ghost use Rattle.wire_starts.specs.Starts.{IsFitting, IsTryStart, completed};

pub mod laws;
mod nearest;

use crate::nearest::around;
use coupling_map::Device;
use placement::Placement;
use std::alloc::{AllocError, Global};

/// Where the runs begin of which one is taken.
#[derive(Drop)]
pub enum Starts {
    /// At this placement alone, where swaps are judged in program order.
    Given(Placement),
    /// At the layouts that are looked for from so many starts; the best is taken.
    Tries(u32),
}

/// The qubits of a list, and behind them those below `size` that aren't in it, ascending.
#[tactic(auto, using(crate::proofs::StartLaws::completing))]
fn completed_list(alloc: Global, list: &[u32], size: u32) -> Result<Vec<u32>, AllocError>
    ensures { IfOk result (λ v. v.items ≡ completed size list.now) }
{
    let mut qubits = Vec::from_slice(alloc, list)?;
    'qubits: for qubit in 0..size {
        if !list.contains(&qubit) {
            qubits.push(qubit)?;
        }
    }
    Ok(qubits)
}

/// The placement that begins with a list of different qubits below `size`: the wires behind it stand on the qubits that are left,
/// ascending.
pub fn completed(alloc: Global, list: &[u32], size: u32) -> Result<Placement, AllocError>
    requires distinct { IsDistinct nat_eq list.now }
    requires within { All (λ q. q < size) list.now }
    ensures value { IfOk result (λ p. p ≡ completed size list.now) }
    ensures placed { IfOk result (λ p. length p ≡ size) }
{
    let qubits = completed_list(alloc, list, size)?;
    let placement = Placement::of(alloc, &qubits)?;
    Ok(placement.unwrap())
}

/// Whether a list has a qubit for each of the wires, and a device of `size` qubits has them.
#[tactic(auto, using(crate::proofs::FitLaws::fitting))]
pub fn is_fitting(list: &[u32], wires: u32, size: u32) -> bool
    ensures yes { result ≡ true → IsFitting wires size list.now }
    ensures no { result ≡ false → IsFitting wires size list.now → ⊥ }
{
    list.len() == wires as usize && list.iter().all(|qubit| *qubit < size)
}

/// Start `number` of a device: where the looking for a layout begins in the try of that number.
///
/// Start 0 is the identity. From 1 on it is all qubits, those with fewer near pairs from qubit 7 (`number` - 1) mod N first, and of
/// as many the lesser; costs don't count.
pub fn start(alloc: Global, device: &Device, number: u32) -> Result<Placement, AllocError>
    ensures start { IfOk result (λ p. IsTryStart device.now number p) }
    ensures placed { IfOk result (λ p. length p ≡ device.now.size) }
{
    // Its contract says that there is a qubit.
    device.facts();
    if number == 0 {
        return Placement::identity(alloc, device.size());
    }
    let centre = 7 * u64::from(number - 1) % u64::from(device.size());
    around(alloc, device, centre as u32)
}
