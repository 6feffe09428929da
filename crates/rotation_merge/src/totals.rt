//! What the phases of a circuit add up to.

ghost use Rattle.std.specs.Prelude.{◌≡◌, ℕ, ◌+◌, ◌%◌, ◌<◌, ◌≤◌, ◌++◌, List, [], ◌∷◌, Some, IfOk, OnOk, drop, length, slice_get};
ghost use Rattle.circuit_list.specs.Gates.{IsFine};
ghost use Rattle.circuit_list.specs.declared.Gate.TheVariants.{P};
ghost use Rattle.path_parity.specs.LabelWalks.{labels_at};
ghost use Rattle.path_parity.specs.PathSum.{PathLabel, Wires, label, phase_label};
ghost use Rattle.path_parity.specs.Sets.{IsLabel, label_of};
ghost use Rattle.rotation_merge.specs.Merging.{constant_phase, kept_constant, kept_phase, signed_phase};
ghost use Rattle.rotation_merge.specs.Sums.{AreNoted, ChangesTotal, Gathers, HasTotals, Writes, rows, total_in};

use crate::row_hash::RowHash;
use circuit_list::{Circuit, Gate};
use indexmap::IndexMap;
use path_parity::{Label, Walk};
use std::alloc::{AllocError, Global};

/// The label of a phase: the number of its set in the map of totals, and its complement bit.
#[derive(Clone, Copy, Debug)]
pub struct Note {
    pub number: usize,
    pub bit: bool,
}

/// The total of each set of path variables, modulo 8, the set by its row of bits; the label of each phase, in order; and the
/// constant, whose value counts modulo 8.
#[derive(Drop)]
pub struct Totals {
    pub sets: IndexMap<Vec<u64>, u8, RowHash>,
    pub notes: Vec<Note>,
    pub constant: u8,
}

impl Totals {
    /// No phase.
    pub fn new(alloc: Global) -> Totals
        ensures none { (vs : List ℕ) → total_in result vs ≡ 0 }
        ensures notes { result.notes.items ≡ [] }
        ensures constant { result.constant ≡ 0 }
    {
        Totals {
            sets: IndexMap::with_hasher(alloc, RowHash::new()),
            notes: Vec::new(alloc),
            constant: 0,
        }
    }

    /// The total of the set with a number, 0 where there is none.
    fn total(&self, number: usize) -> u8
        ensures total { (row : List ℕ) → slice_get (rows self.now) number ≡ Some row → result ≡ total_in self.now row }
    {
        match self.sets.get_index(number) {
            Some((_, total)) => *total,
            None => 0,
        }
    }

    /// Gives the set with a number another total, where there is such a set.
    fn put(&mut self, number: usize, total: u8)
        ensures total { (row : List ℕ) → slice_get (rows self.old) number ≡ Some row → ChangesTotal self.old self.new row total }
        ensures rows { rows self.new ≡ rows self.old }
        ensures notes { self.new.notes ≡ self.old.notes }
        ensures constant { self.new.constant ≡ self.old.constant }
    {
        if let Some(place) = self.sets.get_index_mut(number) {
            *place = total;
        }
    }

    /// Adds to the total of a set, and gives its number.
    fn add(&mut self, alloc: Global, set: &[u64], k: u8) -> Result<usize, AllocError>
        requires { k ≤ 8 }
        ensures total { OnOk result (ChangesTotal self.old self.new set.now ((total_in self.old set.now + k) % 8)) }
        ensures number { IfOk result (λ i. slice_get (rows self.new) i ≡ Some set.now) }
        ensures rows { OnOk result ((more : List (List ℕ)) × (rows self.new ≡ rows self.old ++ more)) }
        ensures notes { self.new.notes ≡ self.old.notes }
        ensures constant { self.new.constant ≡ self.old.constant }
    {
        let key = Vec::from_slice(alloc, set)?;
        let (number, before) = self.sets.insert_full(key, k % 8)?;
        let Some(total) = before else {
            return Ok(number);
        };
        self.put(number, (total % 8 + k) % 8);
        Ok(number)
    }

    /// Adds a phase of a wire with this label, and notes the label.
    fn add_phase(&mut self, alloc: Global, label: &Label, k: u8) -> Result<(), AllocError>
        requires { k < 8 }
        ensures total { OnOk result (ChangesTotal self.old self.new label.now.set.items
            ((total_in self.old label.now.set.items + signed_phase (label_of label.now) k) % 8)) }
        ensures constant { OnOk result (self.new.constant % 8 ≡ (self.old.constant + constant_phase (label_of label.now) k) % 8) }
        ensures noted { OnOk result ((ls : List PathLabel) → IsLabel label.now → AreNoted (rows self.old) self.old.notes.items ls →
            AreNoted (rows self.new) self.new.notes.items (ls ++ label_of label.now ∷ [])) }
    {
        let number = self.add(alloc, &label.set, signed(label.bit, k))?;
        self.notes.push(Note {
            number,
            bit: label.bit,
        })?;
        self.constant = (self.constant % 8 + constant_part(label.bit, k)) % 8;
        Ok(())
    }

    /// Writes what is left of the total of a noted label's set as a phase on a wire.
    fn write_phase(&mut self, written: &mut Circuit, note: Note, q: u32) -> Result<(), AllocError>
        requires there { q < written.old.wires }
        ensures wires { written.new.wires ≡ written.old.wires }
        ensures gates { OnOk result ((row : List ℕ) (m : ℕ) → slice_get (rows self.old) note.number ≡ Some row →
            written.new.gates ≡ written.old.gates ++ kept_phase (label m note.bit) (total_in self.old row % 8) q) }
        ensures total { OnOk result ((row : List ℕ) → slice_get (rows self.old) note.number ≡ Some row → ChangesTotal self.old self.new row 0) }
        ensures constant { OnOk result ((row : List ℕ) (m : ℕ) → slice_get (rows self.old) note.number ≡ Some row →
            (self.new.constant + kept_constant (label m note.bit) (total_in self.old row % 8)) % 8 ≡ self.old.constant % 8) }
        ensures rows { rows self.new ≡ rows self.old }
        ensures notes { self.new.notes ≡ self.old.notes }
    {
        let total = self.total(note.number) % 8;
        self.put(note.number, 0);
        if total == 0 {
            return Ok(());
        }
        let k = signed(note.bit, total);
        written.push(Gate::P { k, q })?;
        self.constant = (self.constant % 8 + (8 - constant_part(note.bit, k))) % 8;
        Ok(())
    }

    /// Adds a gate, where the walk has come to it.
    pub fn gather(&mut self, alloc: Global, walk: &Walk, gate: Gate) -> Result<(), AllocError>
        requires fine { IsFine (length walk.now.labels) gate }
        ensures gathers { OnOk result ((T : ℕ → ℕ) → HasTotals self.old T → Gathers gate (labels_at walk.now) T self.old self.new) }
        ensures noted { OnOk result ((ls : List PathLabel) → AreNoted (rows self.old) self.old.notes.items ls →
            AreNoted (rows self.new) self.new.notes.items (ls ++ phase_label gate (labels_at walk.now))) }
    {
        match gate {
            Gate::P { k, q } => self.add_phase(alloc, walk.label(q), k)?,
            Gate::H { q: _ } | Gate::X { q: _ } | Gate::Cx { c: _, t: _ } => {}
        }
        Ok(())
    }

    /// Writes what is left at a gate, where so many notes were read before, and tells how many are read now.
    pub fn write(
        &mut self,
        written: &mut Circuit,
        read: usize,
        gate: Gate,
    ) -> Result<usize, AllocError>
        requires fine { IsFine written.old.wires gate }
        requires noted { (k q : ℕ) → gate ≡ P k q → read < length self.old.notes.items }
        ensures wires { written.new.wires ≡ written.old.wires }
        ensures writes { OnOk result ((w : Wires) (ls : List PathLabel) (T : ℕ → ℕ) → HasTotals self.old T →
            AreNoted (rows self.old) (drop read self.old.notes.items) (phase_label gate w ++ ls) →
            Writes gate w T self.old self.new written.old.gates written.new.gates) }
        ensures noted { IfOk result (λ now. (w : Wires) (ls : List PathLabel) →
            AreNoted (rows self.old) (drop read self.old.notes.items) (phase_label gate w ++ ls) →
            AreNoted (rows self.new) (drop now self.new.notes.items) ls) }
    {
        match gate {
            Gate::P { k: _, q } => {
                let note = self.notes[read];
                self.write_phase(written, note, q)?;
                Ok(read + 1)
            }
            Gate::H { q: _ } | Gate::X { q: _ } | Gate::Cx { c: _, t: _ } => {
                written.push(gate)?;
                Ok(read)
            }
        }
    }
}

/// What a phase of a wire whose label has this bit adds to the total of its set, or the phase that adds so much.
fn signed(bit: bool, k: u8) -> u8
    requires { k ≤ 8 }
    ensures { result ≡ signed_phase (label 0 bit) k }
{
    if bit { 8 - k } else { k }
}

/// What a phase of a wire whose label has this bit adds to the constant.
fn constant_part(bit: bool, k: u8) -> u8
    ensures { result ≡ constant_phase (label 0 bit) k }
{
    if bit { k } else { 0 }
}
