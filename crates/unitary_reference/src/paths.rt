//! Odd path parities, by the walk along the list.

ghost use Rattle.std.specs.Prelude.{◌≡◌, ◌<◌, ◌≤◌, [], ◌∷◌, slice_index, IfOk, OnOk};
ghost use Rattle.unitary_model.specs.Operations.{WiresBelow};
ghost use Rattle.unitary_model.specs.OddPaths.{own_variables, toggle, toggle_at, toggle_odd, fresh_at, add_at, walked, walked_all, first_walk, odd_paths};
ghost use Rattle.unitary_reference.specs.Values.{walk_of};

use std::alloc::{AllocError, Global};
use unitary_model::Op;

/// The number of odd path parities of a list on `wires` wires, which has at most 64 variables: one
/// for each wire, one for each `U` with `a` 2 or 6, and two for each with an odd `a`. Fails for want
/// of memory alone.
pub fn odd_paths_of(alloc: Global, wires: u32, ops: &[Op]) -> Result<usize, AllocError>
    requires below { WiresBelow wires ops.now }
    requires variables { (walked_all ops.now (first_walk wires)).unused ≤ 64 }
    ensures size { IfOk result (λ size. size ≡ odd_paths wires ops.now) }
{
    let mut walk = PathWalk {
        labels: own_labels(wires),
        unused: wires,
        odd: Vec::new(alloc),
    };
    for op in ops {
        walk.walk_on(*op)?;
    }
    Ok(walk.odd.len())
}

/// Each of the first wires has its own variable alone.
fn own_labels(wires: u32) -> [u64; 64]
    requires wires_limit { wires ≤ 64 }
    ensures own { slice_index result ≡ own_variables wires }
{
    let mut labels = [0; 64];
    for q in 0..wires {
        labels[q as usize] = 1 << q;
    }
    labels
}

/// A walk along a list: a label is a mask of variables.
#[derive(Drop)]
struct PathWalk {
    labels: [u64; 64],
    unused: u32,
    odd: Vec<u64>,
}

impl PathWalk {
    /// Walks past one operation.
    fn walk_on(&mut self, op: Op) -> Result<(), AllocError>
        requires below { WiresBelow 64 (op ∷ []) }
        requires variables { (walked op (walk_of self.old)).unused ≤ 64 }
        ensures walked { OnOk result (walk_of self.new ≡ walked op (walk_of self.old)) }
    {
        match op {
            Op::Cx { c, t } => {
                self.add_label(c, t);
                Ok(())
            }
            Op::U { a, b, c, q } => {
                if a % 4 == 0 {
                    self.flip_where_odd(b as u16 + c as u16, q)
                } else if a % 2 == 0 {
                    self.flip_where_odd(c as u16, q)?;
                    self.give_fresh(q);
                    self.flip_where_odd(b as u16, q)
                } else {
                    self.flip_where_odd(c as u16, q)?;
                    self.give_fresh(q);
                    self.flip_label(q)?;
                    self.give_fresh(q);
                    self.flip_where_odd(b as u16, q)
                }
            }
        }
    }

    /// The label of the control is added to that of the target.
    fn add_label(&mut self, c: u32, t: u32)
        requires control { c < 64 }
        requires target { t < 64 }
        ensures added { walk_of self.new ≡ add_at c t (walk_of self.old) }
    {
        self.labels[t as usize] ^= self.labels[c as usize];
    }

    /// The least variable not used so far is the label of the wire.
    fn give_fresh(&mut self, q: u32)
        requires wire { q < 64 }
        requires labels_limit { self.old.unused < 64 }
        ensures given { walk_of self.new ≡ fresh_at q (walk_of self.old) }
    {
        self.labels[q as usize] = 1 << self.unused;
        self.unused += 1;
    }

    /// Puts the label of the wire into the odd set, or takes it out, where `k` is odd.
    fn flip_where_odd(&mut self, k: u16, q: u32) -> Result<(), AllocError>
        requires wire { q < 64 }
        ensures flipped { OnOk result (walk_of self.new ≡ toggle_odd k q (walk_of self.old)) }
    {
        if k % 2 == 1 {
            self.flip_label(q)
        } else {
            Ok(())
        }
    }

    /// Puts the label of the wire into the odd set, or takes it out.
    fn flip_label(&mut self, q: u32) -> Result<(), AllocError>
        requires wire { q < 64 }
        ensures flipped { OnOk result (walk_of self.new ≡ toggle_at q (walk_of self.old)) }
    {
        flip(&mut self.odd, self.labels[q as usize])
    }
}

/// Puts the label into the set, or takes it out.
fn flip(odd: &mut Vec<u64>, label: u64) -> Result<(), AllocError>
    ensures flipped { OnOk result (odd.new.items ≡ toggle label odd.old.items) }
{
    for place in 0..odd.len() {
        if odd[place] == label {
            odd.remove(place);
            return Ok(());
        }
    }
    odd.push(label)?;
    Ok(())
}
