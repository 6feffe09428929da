//! A walk along a circuit that keeps the label of each wire.

ghost use Rattle.std.specs.Prelude.{◌≡◌, ◌<◌, All, IfOk, OnErr, OnOk, length, map};
ghost use Rattle.circuit_list.specs.Gates.{IsFine};
ghost use Rattle.path_parity.specs.LabelWalks.{labels_at, labels_of_list};
ghost use Rattle.path_parity.specs.PathSum.{labels_after, own_labels, unused_after};
ghost use Rattle.path_parity.specs.Sets.{IsLabel, label_of};

use crate::label::Label;
use circuit_list::Gate;
use std::alloc::{AllocError, Global};
use std::marker::Model;
use std::mem::swap;

/// The labels of all wires at a place of a circuit, and the least variable not used so far. Contracts see the list of the labels
/// and that variable. A new label is made in the memory of the spare one, and the two change places.
#[derive(Drop)]
pub struct Walk {
    labels: Vec<Label>,
    unused: u64,
    spare: Label,
}

impl Model for Walk {
    ghost use Rattle.std.specs.Prelude.{All, map};
    ghost use Rattle.path_parity.specs.LabelWalks.{LabelWalk};
    ghost use Rattle.path_parity.specs.Sets.{IsLabel, label_of};

    ghost Value = { LabelWalk };

    ghost view = { λ a. record { labels = map label_of a.labels.items; unused = a.unused } };

    ghost invariant = { λ a. All IsLabel a.labels.items };
}

impl Walk {
    /// The walk before the first gate: each wire has its own variable alone.
    pub fn new(alloc: Global, wires: u32) -> Result<Walk, AllocError>
        ensures wires { IfOk result (λ w. length w.labels ≡ wires) }
        ensures labels { IfOk result (λ w. labels_at w ≡ own_labels wires) }
        ensures unused { IfOk result (λ w. w.unused ≡ wires) }
    {
        let labels = first_labels(alloc, wires)?;
        Ok(Walk {
            labels,
            unused: wires as u64,
            spare: Label {
                set: Vec::new(alloc),
                bit: false,
            },
        })
    }

    /// Walks past a gate. Fails for want of memory alone, 2^64 variables aside, and is then where it was.
    pub fn pass(&mut self, gate: Gate) -> Result<(), AllocError>
        requires fine { IsFine (length self.old.labels) gate }
        ensures wires { length self.new.labels ≡ length self.old.labels }
        ensures labels { OnOk result (labels_at self.new ≡ labels_after gate (labels_at self.old) self.old.unused) }
        ensures unused { OnOk result (self.new.unused ≡ unused_after gate self.old.unused) }
        ensures err { OnErr result (self.new ≡ self.old) }
    {
        match gate {
            Gate::H { q } => {
                let Some(next) = self.unused.checked_add(1) else {
                    return Err(AllocError);
                };
                self.spare.write_fresh(self.unused)?;
                swap(&mut self.labels[q as usize], &mut self.spare);
                self.unused = next;
            }
            Gate::X { q } => self.labels[q as usize].bit = !self.labels[q as usize].bit,
            Gate::P { k: _, q: _ } => {}
            Gate::Cx { c, t } => {
                self.spare
                    .write_sum(&self.labels[t as usize], &self.labels[c as usize])?;
                swap(&mut self.labels[t as usize], &mut self.spare);
            }
        }
        Ok(())
    }

    /// The label of a wire, its set packed.
    pub fn label(&self, q: u32) -> &Label
        requires within { q < length self.now.labels }
        ensures label { label_of result.now ≡ labels_at self.now q }
        ensures packed { IsLabel result.now }
    {
        &self.labels[q as usize]
    }
}

/// Each wire with its own variable alone.
fn first_labels(alloc: Global, wires: u32) -> Result<Vec<Label>, AllocError>
    ensures wires { IfOk result (λ v. length v.items ≡ wires) }
    ensures labels { IfOk result (λ v. labels_of_list (map label_of v.items) ≡ own_labels wires) }
    ensures packed { IfOk result (λ v. All IsLabel v.items) }
{
    let mut labels = Vec::new(alloc);
    'wires: for q in 0..wires {
        labels.push(Label::fresh(alloc, q as u64)?)?;
    }
    Ok(labels)
}
