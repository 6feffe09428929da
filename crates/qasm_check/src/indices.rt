//! The names of a gate's parameters or qubits, each with its index.

ghost use Rattle.std.specs.Prelude.{◌≡◌, ◌<◌, IfOk, List, ℕ, [], length};
ghost use Rattle.std.specs.List.{position};
ghost use Rattle.std.specs.Str.{bytes_eq};
ghost use Rattle.gate_library.specs.Names.{index_of, is_one_of};
ghost use Rattle.qasm_check.specs.State.{found};

use qasm_parser::Name;
use std::alloc::{AllocError, Global};
use std::collections::BTreeMap;
use std::marker::Model;

/// So many names are searched one by one; of more there is a map.
const FEW: usize = 8;

/// Names, and the first index of each where they are many. Contracts see the list of names.
#[derive(Drop)]
pub struct Indices<'a> {
    names: &'a [Name],
    first: BTreeMap<&'a [u8], usize>,
}

impl<'a> Model for Indices<'a> {
    ghost use Rattle.std.specs.Prelude.{◌≡◌, ◌<◌, List, ℕ, length};
    ghost use Rattle.std.specs.List.{position};
    ghost use Rattle.std.specs.Str.{bytes_eq};
    ghost use Rattle.qasm_check.specs.State.{found};

    ghost Value = { List (List ℕ) };

    ghost view = { λ s. s.names.now };

    ghost invariant = { λ s. 8 < length s.names.now → (name : List ℕ) → found s.first name ≡ position (λ y. bytes_eq name y) s.names.now };
}

/// The first index of each name.
fn first_indices<'a>(
    alloc: Global,
    names: &'a [Name],
) -> Result<BTreeMap<&'a [u8], usize>, AllocError>
    ensures { IfOk result (λ m. (name : List ℕ) → found m name ≡ position (λ y. bytes_eq name y) names.now) }
{
    let mut first = BTreeMap::new(alloc);
    'names: for (i, name) in names.iter().enumerate() {
        let name = name.as_bytes();
        if !first.contains_key(&name) {
            first.insert(name, i)?;
        }
    }
    Ok(first)
}

/// The first index of each name, where they are many.
fn indices_of_many<'a>(
    alloc: Global,
    names: &'a [Name],
) -> Result<BTreeMap<&'a [u8], usize>, AllocError>
    ensures { IfOk result (λ m. 8 < length names.now → (name : List ℕ) → found m name ≡ position (λ y. bytes_eq name y) names.now) }
{
    if names.len() <= FEW {
        return Ok(BTreeMap::new(alloc));
    }
    first_indices(alloc, names)
}

/// The first index of a name among these.
fn first_among(names: &[Name], name: &[u8]) -> Option<usize>
    ensures { result ≡ position (λ y. bytes_eq name.now y) names.now }
{
    names.iter().position(|other| name == other.as_bytes())
}

impl<'a> Indices<'a> {
    /// No names.
    pub fn none(alloc: Global) -> Indices<'a>
        ensures value { result ≡ [] }
    {
        Indices {
            names: &[],
            first: BTreeMap::new(alloc),
        }
    }

    /// These names.
    pub fn of(alloc: Global, names: &'a [Name]) -> Result<Indices<'a>, AllocError>
        ensures ok { IfOk result (λ s. s ≡ names.now) }
    {
        let first = indices_of_many(alloc, names)?;
        Ok(Indices { names, first })
    }

    /// The first index of the name, from 0.
    fn position(&self, name: &'a [u8]) -> Option<usize>
        ensures { result ≡ position (λ y. bytes_eq name.now y) self.now }
    {
        if self.names.len() <= FEW {
            first_among(self.names, name)
        } else {
            self.first.get(&name).copied()
        }
    }

    /// Whether the name is one of these.
    pub fn has(&self, name: &'a [u8]) -> bool
        ensures value { result ≡ is_one_of self.now name.now }
    {
        self.position(name).is_some()
    }

    /// The first index of the name, from 0; 0 where it isn't there.
    pub fn index(&self, name: &'a [u8]) -> usize
        ensures value { result ≡ index_of self.now name.now }
    {
        self.position(name).unwrap_or(0)
    }
}
