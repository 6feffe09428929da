//! Why reading stops.

ghost use Rattle.std.specs.Prelude.{◌≡◌};
ghost use Rattle.qasm_parser.specs.declared.stop.ParseStop.TheVariants.{NoMemory};

use std::alloc::{AllocError, AllocFailed};

/// No memory, or a symbol that doesn't fit: so many are left from it to the end.
#[derive(Debug, Drop)]
pub enum ParseStop {
    NoMemory,
    Misfit { left: usize },
}

impl From<AllocError> for ParseStop {
    ghost use Rattle.std.specs.Prelude.{◌≡◌};
    ghost use Rattle.qasm_parser.specs.declared.stop.ParseStop.TheVariants.{NoMemory};

    ghost from_gives = { λ _ s. s ≡ NoMemory };

    fn from(_error: AllocError) -> ParseStop {
        ParseStop::NoMemory
    }
}

impl<T: Drop> From<AllocFailed<T>> for ParseStop {
    ghost use Rattle.std.specs.Prelude.{◌≡◌};
    ghost use Rattle.qasm_parser.specs.declared.stop.ParseStop.TheVariants.{NoMemory};

    ghost from_gives = { λ _ s. s ≡ NoMemory };

    fn from(_error: AllocFailed<T>) -> ParseStop {
        ParseStop::NoMemory
    }
}
