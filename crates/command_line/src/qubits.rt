//! The list of qubits that a command line gives.

use std::alloc::{AllocError, Global};
use std::marker::Model;

/// Qubits, that of wire 0 first: contracts see the list itself.
#[derive(Debug, Drop)]
pub struct QubitList {
    list: Vec<u32>,
}

impl Model for QubitList {
    ghost use Rattle.std.specs.Prelude.{List, ℕ};

    ghost Value = { List ℕ };

    ghost view = { λ q. q.list.items };
}

impl QubitList {
    ghost use Rattle.std.specs.Prelude.{◌≡◌};

    /// The qubits of a `Vec`; takes no memory.
    pub fn new(list: Vec<u32>) -> QubitList
        ensures value { result ≡ list.items }
    {
        QubitList { list }
    }

    /// The qubits in order.
    pub fn as_slice(&self) -> &[u32]
        ensures value { result.now ≡ self.now }
    {
        self.list.as_slice()
    }
}

impl PartialEq for QubitList {
    ghost use Rattle.std.specs.Prelude.{nat_eq};
    ghost use Rattle.std.specs.Cmp.Lexicographic.{pointwise};
    ghost use Rattle.std.proofs.Common.{rules};
    ghost use Rattle.std.specs.Cmp.Rules.{comparing};

    ghost eq = { pointwise nat_eq };

    ghost laws = { Prim.search (comparing, rules) };

    fn eq(&self, other: &QubitList) -> bool {
        self.list == other.list
    }
}

impl Eq for QubitList {
    ghost use Rattle.std.proofs.Common.{rules};
    ghost use Rattle.std.specs.Cmp.Rules.{comparing};

    ghost laws = { Prim.search (comparing, rules) };
}
