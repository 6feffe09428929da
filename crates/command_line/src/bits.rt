//! The bits that a command line gives.

use std::alloc::{AllocError, Global};
use std::marker::Model;

/// Bits, the first for wire 0: contracts see the list itself.
#[derive(Debug, Drop)]
pub struct BitList {
    list: Vec<bool>,
}

impl Model for BitList {
    ghost use Rattle.std.specs.Prelude.{List, Bool};

    ghost Value = { List Bool };

    ghost view = { λ b. b.list.items };
}

impl BitList {
    ghost use Rattle.std.specs.Prelude.{◌≡◌};

    /// The bits of a `Vec`; takes no memory.
    pub fn new(list: Vec<bool>) -> BitList
        ensures value { result ≡ list.items }
    {
        BitList { list }
    }

    /// The bits in order.
    pub fn as_slice(&self) -> &[bool]
        ensures value { result.now ≡ self.now }
    {
        self.list.as_slice()
    }
}

impl PartialEq for BitList {
    ghost use Rattle.std.specs.Prelude.{Bool};
    ghost use Rattle.std.specs.Cmp.Lexicographic.{pointwise};
    ghost use Rattle.std.specs.Bool.{beq};
    ghost use Rattle.std.proofs.Common.{rules};
    ghost use Rattle.std.specs.Cmp.Rules.{comparing};

    ghost eq = { pointwise beq };

    ghost laws = { Prim.search (comparing, rules) };

    fn eq(&self, other: &BitList) -> bool {
        self.list == other.list
    }
}

impl Eq for BitList {
    ghost use Rattle.std.proofs.Common.{rules};
    ghost use Rattle.std.specs.Cmp.Rules.{comparing};

    ghost laws = { Prim.search (comparing, rules) };
}
