//! What a linked circuit keeps beside its slots: a tree over them, and marks.
//!
//! Each node of the tree tells how many gates stand below it and on which wires they are, so a place, a slot and the next gate
//! on a wire are found in as many steps as the tree is high. Near gates on a wire are found by marks, without the tree.
//! The functions that keep links right take `None` too, and then do nothing.

ghost use Rattle.std.specs.Prelude.{◌≡◌, ◌+◌, ◌*◌, ◌^◌, ◌<◌, ◌++◌, ◌∷◌, [], IfOk, IfSome, List, OnErr, OnOk, Option, Some, length, slice_set};
ghost use Rattle.circuit_list.specs.declared.Gate.{Gate};
ghost use Rattle.circuit_list.specs.declared.links.Links.{Links};
ghost use Rattle.circuit_list.specs.Entries.{entry};
ghost use Rattle.circuit_list.specs.Links.{IsLinks, IsReady};
ghost use Rattle.circuit_list.specs.Marks.{IsMarked};
ghost use Rattle.circuit_list.specs.Tree.{IsTree};

use crate::Gate;
use crate::entry::Entry;
use crate::marks::{make_marks, put_marks};
use crate::nodes::{Node, add, refresh, tell};
use std::alloc::{AllocError, Global};

/// The nodes and marks over some slots. The nodes are as many as two to the height, and no fewer than the slots. Each slot is
/// marked on the wires that its gate is on.
#[derive(Drop)]
pub(crate) struct Links {
    pub(crate) nodes: Vec<Node>,
    pub(crate) marks: Vec<u64>,
    pub(crate) height: u32,
}

impl Links {
    /// Sees to it that there is room for one slot more.
    fn make_room(&mut self, gates: &[Entry]) -> Result<(), AllocError>
        requires { IsLinks gates.now self.old }
        ensures links { IsLinks gates.now self.new }
        ensures ready { OnOk result (IsReady gates.now self.new) }
    {
        make_nodes(gates, &mut self.nodes, &mut self.height)?;
        make_marks(&mut self.marks, gates.len())
    }

    /// Links the last slot, which came behind the others with a gate.
    fn push(&mut self, gates: &[Entry], gate: Gate)
        requires { (es : List (Option Gate)) × (IsReady es self.old × (gates.now ≡ es ++ Some gate ∷ [])) }
        ensures { IsLinks gates.now self.new }
    {
        let slot = gates.len() - 1;
        put_marks(&mut self.marks, slot, Entry::of(Some(gate)), true);
        add(gates, &mut self.nodes, slot, gate);
    }

    /// Links a slot anew whose gate was changed.
    fn set(&mut self, gates: &[Entry], slot: usize, before: Entry, after: Entry)
        requires within { slot < length gates.now }
        requires changed { (es : List (Option Gate)) × (IsLinks es self.old × ((entry es slot ≡ before) × (gates.now ≡ slice_set es slot after))) }
        ensures { IsLinks gates.now self.new }
    {
        put_marks(&mut self.marks, slot, before, false);
        put_marks(&mut self.marks, slot, after, true);
        refresh(gates, &mut self.nodes, slot);
    }
}

/// The links of some slots, with no more nodes than these need.
pub(crate) fn planted(alloc: Global, gates: &[Entry]) -> Result<Links, AllocError>
    ensures ok { IfOk result (IsLinks gates.now) }
{
    let mut nodes = Vec::new(alloc);
    nodes.push(Node { count: 0, wires: 0 })?;
    let mut height = 0;
    'higher: while nodes.len() < gates.len() {
        double(&mut nodes)?;
        height += 1;
    }
    tell(gates, &mut nodes);
    let marks = marked(alloc, gates)?;
    Ok(Links {
        nodes,
        marks,
        height,
    })
}

/// The links of some slots, where they are wanted.
pub(crate) fn planted_if(
    wanted: bool,
    alloc: Global,
    gates: &[Entry],
) -> Result<Option<Links>, AllocError>
    ensures ok { IfOk result (λ l. IfSome l (IsLinks gates.now)) }
{
    if wanted {
        let links = planted(alloc, gates)?;
        Ok(Some(links))
    } else {
        Ok(None)
    }
}

/// Sees to it that there is room for one slot more.
pub(crate) fn make_room(links: &mut Option<Links>, gates: &[Entry]) -> Result<(), AllocError>
    requires linked { IfSome links.old (IsLinks gates.now) }
    ensures links { IfSome links.new (IsLinks gates.now) }
    ensures ready { OnOk result (IfSome links.new (IsReady gates.now)) }
{
    match links {
        Some(links) => links.make_room(gates),
        None => Ok(()),
    }
}

/// Links the last slot, which came behind the others with a gate.
pub(crate) fn link_last(links: &mut Option<Links>, gates: &[Entry], gate: Gate)
    requires ready { (es : List (Option Gate)) × (IfSome links.old (IsReady es) × (gates.now ≡ es ++ Some gate ∷ [])) }
    ensures linked { IfSome links.new (IsLinks gates.now) }
{
    match links {
        Some(links) => links.push(gates, gate),
        None => {}
    }
}

/// Links a slot anew whose gate was changed.
pub(crate) fn link_anew(
    links: &mut Option<Links>,
    gates: &[Entry],
    slot: usize,
    before: Entry,
    after: Entry,
)
    requires within { slot < length gates.now }
    requires changed { (es : List (Option Gate)) × (IfSome links.old (IsLinks es) × ((entry es slot ≡ before) × (gates.now ≡ slice_set es slot after))) }
    ensures linked { IfSome links.new (IsLinks gates.now) }
{
    match links {
        Some(links) => links.set(gates, slot, before, after),
        None => {}
    }
}

/// Twice as many nodes, the later half of which tells nothing.
fn double(nodes: &mut Vec<Node>) -> Result<(), AllocError>
    ensures len { OnOk result (length nodes.new.items ≡ 2 * length nodes.old.items) }
    ensures room { OnOk result (length nodes.new.items < 2 ^ 64) }
    ensures err { OnErr result (nodes.new.items ≡ nodes.old.items) }
{
    let len = nodes.len();
    nodes.resize(2 * len, Node { count: 0, wires: 0 })?;
    let _nodes = nodes.len();
    Ok(())
}

/// Sees to it that there are enough nodes for one slot more.
fn make_nodes(gates: &[Entry], nodes: &mut Vec<Node>, height: &mut u32) -> Result<(), AllocError>
    requires { IsTree height.old gates.now nodes.old.items }
    ensures tree { IsTree height.new gates.now nodes.new.items }
    ensures room { OnOk result (length gates.now < length nodes.new.items) }
{
    if gates.len() < nodes.len() {
        return Ok(());
    }
    double(nodes)?;
    tell(gates, nodes);
    *height += 1;
    Ok(())
}

/// The marks of some slots.
fn marked(alloc: Global, gates: &[Entry]) -> Result<Vec<u64>, AllocError>
    ensures { IfOk result (λ m. IsMarked gates.now m.items) }
{
    let mut marks = Vec::new(alloc);
    'slots: for slot in 0..gates.len() {
        make_marks(&mut marks, slot)?;
        put_marks(&mut marks, slot, gates[slot], true);
    }
    Ok(marks)
}
