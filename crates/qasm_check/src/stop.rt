//! Why the check of a statement stops.

use crate::refusal::CheckRefusal;
use std::alloc::{AllocError, AllocFailed};

/// No memory, or the statement is refused.
#[derive(Clone, Copy, Debug)]
pub enum CheckStop {
    NoMemory,
    Refused(CheckRefusal),
}

impl From<AllocError> for CheckStop {
    ghost use Rattle.std.specs.Prelude.{◌≡◌};
    ghost use Rattle.qasm_check.specs.declared.stop.CheckStop.TheVariants.{NoMemory};

    ghost from_gives = { λ _ s. s ≡ NoMemory };

    fn from(_error: AllocError) -> CheckStop {
        CheckStop::NoMemory
    }
}

impl<T: Drop> From<AllocFailed<T>> for CheckStop {
    ghost use Rattle.std.specs.Prelude.{◌≡◌};
    ghost use Rattle.qasm_check.specs.declared.stop.CheckStop.TheVariants.{NoMemory};

    ghost from_gives = { λ _ s. s ≡ NoMemory };

    fn from(_error: AllocFailed<T>) -> CheckStop {
        CheckStop::NoMemory
    }
}
