//! The run of the router once more, event by event, and the line of each.

ghost use Rattle.std.specs.Prelude.{◌≡◌, ◌<◌, ◌≤◌, ◌++◌, Some, IfOk, OnOk, length};
ghost use Rattle.circuit_list.specs.Gates.{IsFine};
ghost use Rattle.trace_text.specs.Texts.{ended};
ghost use Rattle.sabre_route.specs.Emission.{low_order};
ghost use Rattle.trace_model.specs.Lines.{all_spelt};
ghost use Rattle.unitary_model.specs.Placement.{IsPlacement};
ghost use Rattle.route_trace.specs.EventLines.{AreThere, IsThere, emitted_line, event_line, event_lines, left_by, line_of, placed_by, swapped_line};
ghost use Rattle.route_trace.specs.Replays.{IsReplay};

use crate::lines::push_line;
use circuit_list::{Circuit, Gate};
use coupling_map::Device;
use placement::Placement;
use sabre_route::Event;
use std::alloc::{AllocError, Global};

/// A line of an event.
#[derive(Clone, Copy, Debug, PartialEq, Eq)]
pub enum EventLine {
    /// The gate at a place among those that are left is emitted.
    Emit { place: usize },
    /// The CNOT at a place among those that are left is emitted, turned round.
    Back { place: usize },
    /// Two qubits are swapped.
    Swap { first: u32, second: u32 },
    /// Two qubits are swapped, with the middle CNOT turned round.
    Turn { first: u32, second: u32 },
}

/// The gates that are left, and where the wires stand.
#[derive(Drop)]
pub struct Replay {
    pub rest: Circuit,
    pub placement: Placement,
}

/// The line of a gate that is emitted.
fn gate_line(device: &Device, placement: &Placement, gate: Gate, place: usize) -> EventLine
    requires placed { length placement.now ≡ device.now.size }
    requires fine { IsFine device.now.size gate }
    ensures { line_of result ≡ emitted_line device.now.edges placement.now (Some gate) place }
{
    match gate {
        Gate::H { q: _ } | Gate::X { q: _ } | Gate::P { k: _, q: _ } => EventLine::Emit { place },
        Gate::Cx { c, t } => {
            if device.edge(placement.phys(c), placement.phys(t)) {
                EventLine::Emit { place }
            } else {
                EventLine::Back { place }
            }
        }
    }
}

/// The two qubits of a swap, its first CNOT from the first to the second: the lesser first, unless
/// the edge isn't there.
#[tactic(auto, unfolding(sabre_route::specs::Emission::low_order))]
fn low_order(device: &Device, a: u32, b: u32) -> (u32, u32)
    requires first { a < device.now.size }
    requires second { b < device.now.size }
    ensures order { result ≡ low_order device.now.edges a b }
    ensures first { result.0 < device.now.size }
    ensures second { result.1 < device.now.size }
{
    let low = a.min(b);
    let high = a.max(b);
    if device.edge(low, high) {
        (low, high)
    } else {
        (high, low)
    }
}

/// The line of a swap.
fn swap_line(device: &Device, a: u32, b: u32) -> EventLine
    requires first { a < device.now.size }
    requires second { b < device.now.size }
    ensures { line_of result ≡ swapped_line device.now.edges a b }
{
    let (first, second) = low_order(device, a, b);
    if device.edge(second, first) {
        EventLine::Swap { first, second }
    } else {
        EventLine::Turn { first, second }
    }
}

impl Replay {
    /// All gates are left, and the wires stand where they begin.
    pub fn start(
        alloc: Global,
        body: &Circuit,
        device: &Device,
        given: &[u32],
    ) -> Result<Replay, AllocError>
        requires placement { IsPlacement device.now.size given.now }
        requires fits { body.now.wires ≤ device.now.size }
        ensures replay { IfOk result (λ r. IsReplay device.now.size r) }
        ensures rest { IfOk result (λ r. r.rest.gates ≡ body.now.gates) }
        ensures placement { IfOk result (λ r. r.placement ≡ given.now) }
    {
        // Its contract says that the device isn't too large.
        device.facts();
        let mut rest = body.copy()?;
        rest.link()?;
        let placement = Placement::of(alloc, given)?.unwrap();
        Ok(Replay { rest, placement })
    }

    /// The line of the next event.
    fn line(&self, device: &Device, event: Event) -> EventLine
        requires replay { IsReplay device.now.size self.now }
        requires there { IsThere device.now.size self.now.rest.gates event }
        ensures { line_of result ≡ event_line device.now.edges self.now.placement self.now.rest.gates event }
    {
        match event {
            Event::Emit { place } => {
                gate_line(device, &self.placement, self.rest.gate(place), place)
            }
            Event::Swap { a, b } => swap_line(device, a, b),
        }
    }

    /// Goes past the next event.
    fn pass(&mut self, device: &Device, event: Event)
        requires replay { IsReplay device.now.size self.old }
        requires there { IsThere device.now.size self.old.rest.gates event }
        ensures replay { IsReplay device.now.size self.new }
        ensures rest { self.new.rest.gates ≡ left_by self.old.rest.gates event }
        ensures placement { self.new.placement ≡ placed_by self.old.placement event }
    {
        match event {
            Event::Emit { place } => self.rest.remove(place),
            Event::Swap { a, b } => self.placement.swap(a, b),
        }
    }
}

/// The lines of events, each with its line break.
pub fn push_events(
    bytes: &mut Vec<u8>,
    replay: Replay,
    device: &Device,
    events: &[Event],
) -> Result<(), AllocError>
    requires replay { IsReplay device.now.size replay }
    requires there { AreThere device.now.size replay.rest.gates events.now }
    ensures ok { OnOk result (bytes.new.items ≡ bytes.old.items
        ++ ended (all_spelt (event_lines device.now.edges replay.placement replay.rest.gates events.now))) }
{
    let mut replay = replay;
    'events: for event in events {
        push_line(bytes, replay.line(device, *event))?;
        replay.pass(device, *event);
    }
    Ok(())
}
