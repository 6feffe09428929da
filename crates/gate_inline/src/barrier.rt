//! The wires that a barrier names.

use std::alloc::{AllocError, Global};
use std::marker::Model;
use std::rc::Rc;

/// The wires that a barrier between two parts names. Barriers one behind the other that name the same share one list, so that
/// very many of them on all wires take little room. Contracts see the list.
#[derive(Drop)]
pub struct Barrier {
    list: Rc<Vec<u32>>,
}

impl Model for Barrier {
    ghost use Rattle.std.specs.Prelude.{Vec, ℕ};
    ghost use Rattle.std.specs.declared.alloc.Global.{Global};

    ghost Value = { Vec ℕ Global };

    ghost view = { λ b. b.list.value };
}

impl Barrier {
    ghost use Rattle.std.specs.Prelude.{◌≡◌, IfOk};

    /// A barrier on these wires.
    pub fn new(alloc: Global, wires: Vec<u32>) -> Result<Barrier, AllocError>
        ensures ok { IfOk result (λ b. b.items ≡ wires.items) }
    {
        let list = Rc::new(alloc, wires)?;
        Ok(Barrier { list })
    }

    /// The same barrier once more, with the same list.
    fn copy(&self) -> Result<Barrier, AllocError>
        ensures ok { IfOk result (λ b. b ≡ self.now) }
    {
        let list = self.list.clone()?;
        Ok(Barrier { list })
    }

    /// A barrier on these wires, behind others: it shares the list of the last of them, if that names the same.
    pub fn behind(alloc: Global, wires: Vec<u32>, others: &[Barrier]) -> Result<Barrier, AllocError>
        ensures ok { IfOk result (λ b. b.items ≡ wires.items) }
    {
        if let Some(last) = others.last() {
            if last.wires() == wires.as_slice() {
                return last.copy();
            }
        }
        Barrier::new(alloc, wires)
    }

    /// The wires in order.
    pub fn wires(&self) -> &[u32]
        ensures value { result.now ≡ self.now.items }
    {
        self.list.as_slice()
    }
}
