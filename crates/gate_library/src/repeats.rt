//! Whether something stands twice in a list.

ghost use Rattle.std.specs.Prelude.{◌≡◌, IfOk, map, nat_eq};
ghost use Rattle.std.specs.List.{list_any};
ghost use Rattle.std.specs.Str.{bytes_eq};
ghost use Rattle.gate_library.specs.Names.{has_repeat};

use std::alloc::{AllocError, Global};
use std::collections::BTreeSet;

/// Up to so many names are compared with one another, and more are put into a set.
const FEW: usize = 8;

/// Whether a name is one of these.
fn stands_in(name: &[u8], names: &[&[u8]]) -> bool
    ensures { result ≡ list_any (λ other. bytes_eq name.now other.now) names.now }
{
    names.iter().any(|other| name == *other)
}

/// Whether one of some names stands twice, by comparing each with those before it.
#[tactic(auto, using(crate::proofs::RepeatLaws::names_repeating))]
fn few_repeat(names: &[&[u8]]) -> bool
    ensures { result ≡ has_repeat bytes_eq (map (λ n. n.now) names.now) }
{
    'names: for i in 0..names.len() {
        if stands_in(names[i], &names[..i]) {
            return true;
        }
    }
    false
}

/// Whether one of many names stands twice, by a set of those before.
#[tactic(auto, using(crate::proofs::RepeatLaws::names_repeating))]
fn many_repeat(alloc: Global, names: &[&[u8]]) -> Result<bool, AllocError>
    ensures ok { IfOk result (λ b. b ≡ has_repeat bytes_eq (map (λ n. n.now) names.now)) }
{
    let mut seen = BTreeSet::new(alloc);
    'names: for name in names {
        if !seen.insert(*name)? {
            return Ok(true);
        }
    }
    Ok(false)
}

/// Whether one name stands twice.
pub fn names_repeat(alloc: Global, names: &[&[u8]]) -> Result<bool, AllocError>
    ensures ok { IfOk result (λ b. b ≡ has_repeat bytes_eq (map (λ n. n.now) names.now)) }
{
    if names.len() <= FEW {
        return Ok(few_repeat(names));
    }
    many_repeat(alloc, names)
}

/// Whether one wire stands twice.
pub fn wires_repeat(alloc: Global, wires: &[u64]) -> Result<bool, AllocError>
    ensures ok { IfOk result (λ b. b ≡ has_repeat nat_eq wires.now) }
{
    let mut seen = BTreeSet::new(alloc);
    'wires: for wire in wires {
        if !seen.insert(*wire)? {
            return Ok(true);
        }
    }
    Ok(false)
}
