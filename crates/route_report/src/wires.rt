//! A list of wires that a record can hold.

use std::alloc::{AllocError, Global};
use std::marker::Model;
use std::rc::Rc;

/// The list of a [`Wires`]: its own, or one that copies have too.
#[derive(Drop)]
pub(crate) enum Held {
    Own(Vec<u32>),
    Shared(Rc<Vec<u32>>),
}

/// Wires in order, in a list of their own or in one that all copies share: contracts see the list itself.
#[derive(Drop)]
pub struct Wires {
    list: Held,
}

impl Model for Wires {
    ghost use Rattle.std.specs.Prelude.{List, ℕ};
    ghost use Rattle.route_report.specs.Held.{wires_in};

    ghost Value = { List ℕ };

    ghost view = { λ w. wires_in w.list };
}

impl Wires {
    ghost use Rattle.std.specs.Prelude.{◌≡◌, IfOk};

    /// The wires of a `Vec`; takes no memory.
    pub fn new(list: Vec<u32>) -> Wires
        ensures value { result ≡ list.items }
    {
        Wires {
            list: Held::Own(list),
        }
    }

    /// The wires of a `Vec`, in a list that copies share.
    pub fn shared(alloc: Global, list: Vec<u32>) -> Result<Wires, AllocError>
        ensures ok { IfOk result (λ w. w ≡ list.items) }
    {
        let list = Rc::new(alloc, list)?;
        Ok(Wires {
            list: Held::Shared(list),
        })
    }

    /// The same wires once more; takes no memory where the list is shared.
    pub fn copy(&self) -> Result<Wires, AllocError>
        ensures ok { IfOk result (λ w. w ≡ self.now) }
    {
        match &self.list {
            Held::Own(list) => Ok(Wires::new(Vec::from_slice(*list.allocator(), list)?)),
            Held::Shared(list) => {
                let list = list.clone()?;
                Ok(Wires {
                    list: Held::Shared(list),
                })
            }
        }
    }

    /// The wires in order.
    pub fn as_slice(&self) -> &[u32]
        ensures value { result.now ≡ self.now }
    {
        match &self.list {
            Held::Own(list) => list.as_slice(),
            Held::Shared(list) => list.as_slice(),
        }
    }
}
