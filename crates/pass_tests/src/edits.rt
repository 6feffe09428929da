//! Changes that are made by a circuit's own calls.

ghost use Rattle.std.specs.Prelude.{◌≡◌};

use circuit_list::Circuit;
use rewrite_pass::Change;
use test_circuits::is_fine;

/// Makes the edits, which ascend, from the last to the first. Whether each can be made.
pub fn make(wires: u32, body: &mut Circuit, change: &Change) -> bool
    requires wires { body.old.wires ≡ wires }
    ensures wires { body.new.wires ≡ wires }
{
    if change.count > 5 {
        return false;
    }
    'edits: for i in (0..change.count).rev() {
        let edit = change.edits[i];
        if edit.place >= body.len() {
            return false;
        }
        match edit.put {
            Some(gate) => {
                if !is_fine(wires, gate) {
                    return false;
                }
                body.replace(edit.place, gate);
            }
            None => body.remove(edit.place),
        }
    }
    true
}
