//! Labels: sets of path variables with a complement bit.

ghost use Rattle.std.specs.Prelude.{◌≡◌, IfOk, OnOk};
ghost use Rattle.path_parity.specs.PathSum.{add_labels, fresh};
ghost use Rattle.path_parity.specs.Sets.{IsLabel, label_of};

use crate::packed::{write_difference, write_single};
use std::alloc::{AllocError, Global};

/// A label: a set of path variables as a row of bits, and one complement bit. Its value is the sum modulo 2 of its variables'
/// values and the bit. The row is empty for the empty set, else a place p and then the words from there on, variable 64 p being
/// the lowest bit of the first; neither the first word nor the last is 0.
#[derive(Debug, Drop)]
pub struct Label {
    pub set: Vec<u64>,
    pub bit: bool,
}

impl Label {
    /// One variable alone.
    pub fn fresh(alloc: Global, variable: u64) -> Result<Label, AllocError>
        ensures label { IfOk result (λ l. label_of l ≡ fresh variable) }
        ensures packed { IfOk result IsLabel }
    {
        let mut set = Vec::with_capacity(alloc, 2)?;
        write_single(&mut set, variable)?;
        Ok(Label { set, bit: false })
    }

    /// The same label again.
    pub fn copy(&self, alloc: Global) -> Result<Label, AllocError>
        ensures items { IfOk result (λ l. l.set.items ≡ self.now.set.items) }
        ensures bit { IfOk result (λ l. l.bit ≡ self.now.bit) }
    {
        let set = Vec::from_slice(alloc, &self.set)?;
        Ok(Label { set, bit: self.bit })
    }

    /// Becomes one variable alone, in the memory that it has where that is enough.
    pub fn write_fresh(&mut self, variable: u64) -> Result<(), AllocError>
        ensures label { OnOk result (label_of self.new ≡ fresh variable) }
        ensures packed { OnOk result (IsLabel self.new) }
    {
        write_single(&mut self.set, variable)?;
        self.bit = false;
        Ok(())
    }

    /// Becomes the sum of two labels, in the memory that it has where that is enough, and in time in proportion to the places
    /// between the first word and the last of both.
    pub fn write_sum(&mut self, left: &Label, right: &Label) -> Result<(), AllocError>
        requires left { IsLabel left.now }
        requires right { IsLabel right.now }
        ensures sum { OnOk result (label_of self.new ≡ add_labels (label_of left.now) (label_of right.now)) }
        ensures packed { OnOk result (IsLabel self.new) }
    {
        write_difference(&mut self.set, &left.set, &right.set)?;
        self.bit = left.bit != right.bit;
        Ok(())
    }
}
