//! A source's operations and reads.

use std::marker::Model;
use unitary_model::Op;

/// Operations in circuit order: contracts see the list itself.
#[derive(Drop)]
pub struct OpList {
    list: Vec<Op>,
}

impl Model for OpList {
    ghost use Rattle.std.specs.Prelude.{List};
    ghost use Rattle.unitary_model.specs.declared.Op.{Op};

    ghost Value = { List Op };

    ghost view = { λ l. l.list.items };
}

impl OpList {
    ghost use Rattle.std.specs.Prelude.{◌≡◌};

    /// The operations of a `Vec`; takes no memory.
    pub fn new(list: Vec<Op>) -> OpList
        ensures value { result ≡ list.items }
    {
        OpList { list }
    }

    /// The operations in order.
    pub fn as_slice(&self) -> &[Op]
        ensures value { result.now ≡ self.now }
    {
        self.list.as_slice()
    }
}

/// For each classical bit the wire that is read into it last, or none: contracts see the list itself.
#[derive(Drop)]
pub struct ReadList {
    list: Vec<Option<u32>>,
}

impl Model for ReadList {
    ghost use Rattle.std.specs.Prelude.{List, Option, ℕ};

    ghost Value = { List (Option ℕ) };

    ghost view = { λ l. l.list.items };
}

impl ReadList {
    ghost use Rattle.std.specs.Prelude.{◌≡◌};

    /// The reads of a `Vec`; takes no memory.
    pub fn new(list: Vec<Option<u32>>) -> ReadList
        ensures value { result ≡ list.items }
    {
        ReadList { list }
    }

    /// The reads in order of the bits.
    pub fn as_slice(&self) -> &[Option<u32>]
        ensures value { result.now ≡ self.now }
    {
        self.list.as_slice()
    }
}

/// A source's operations and reads. Its wires are numbered from 0.
#[derive(Drop)]
pub struct Ops {
    pub wires: u32,
    pub list: OpList,
    pub reads: ReadList,
}
