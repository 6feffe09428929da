//! Where the wires of a program begin on a device.

ghost use Rattle.std.specs.Prelude.{◌≡◌, ◌<◌, All, IfOk, IfSome};
ghost use Rattle.command_line.specs.Commands.{IsBeginAllowed};
ghost use Rattle.command_line.specs.Demands.{told_list};
ghost use Rattle.qroute_top.specs.Delivered.{starts_of};
ghost use Rattle.wire_starts.specs.Starts.{AreStarts};

use command_line::commands::Begin;
use placement::Placement;
use std::alloc::{AllocError, Global};
use wire_starts::{Starts, completed};

/// Where the runs begin on a device of `size` qubits: each wire on the qubit of its own number, or at the list, completed, or at
/// the best of so many tries.
pub fn starts_of(alloc: Global, begin: &Begin, size: u32) -> Result<Starts, AllocError>
    requires allowed { IsBeginAllowed begin.now }
    requires within { IfSome (told_list begin.now) (All (λ q. q < size)) }
    ensures value { IfOk result (λ s. s ≡ starts_of begin.now size) }
    ensures some { IfOk result (AreStarts size) }
{
    match begin {
        Begin::Trivial => Ok(Starts::Given(Placement::identity(alloc, size)?)),
        Begin::Listed(list) => Ok(Starts::Given(completed(alloc, list.as_slice(), size)?)),
        Begin::Tries(tries) => Ok(Starts::Tries(*tries)),
    }
}
