//! Why a statement has no operations.

use angle_fraction::AngleFault;
use std::alloc::{AllocError, AllocFailed};

/// What an angle lacks.
#[derive(Clone, Copy, Debug)]
pub enum AngleRefusal {
    /// It has no exact value: a product of two parts with pi, a function, and the like.
    NoForm,
    /// A divisor in it is 0.
    ByZero,
    /// Its numerator or denominator is above 2^62.
    TooLarge,
    /// It is no multiple of pi/4, and stands at a `U`.
    NoStep,
}

/// No memory, or an angle that isn't exact.
#[derive(Clone, Copy, Debug)]
pub enum InlineStop {
    NoMemory,
    Angle(AngleRefusal),
}

impl From<AllocError> for InlineStop {
    ghost use Rattle.std.specs.Prelude.{◌≡◌};
    ghost use Rattle.gate_inline.specs.declared.stop.InlineStop.TheVariants.{NoMemory};

    ghost from_gives = { λ _ s. s ≡ NoMemory };

    fn from(_error: AllocError) -> InlineStop {
        InlineStop::NoMemory
    }
}

impl<T: Drop> From<AllocFailed<T>> for InlineStop {
    ghost use Rattle.std.specs.Prelude.{◌≡◌};
    ghost use Rattle.gate_inline.specs.declared.stop.InlineStop.TheVariants.{NoMemory};

    ghost from_gives = { λ _ s. s ≡ NoMemory };

    fn from(_error: AllocFailed<T>) -> InlineStop {
        InlineStop::NoMemory
    }
}

impl From<AngleFault> for InlineStop {
    ghost use Rattle.std.specs.Prelude.{◌≡◌};
    ghost use Rattle.gate_inline.specs.Meanings.{unvalued_of};
    ghost use Rattle.gate_inline.specs.declared.stop.InlineStop.TheVariants.{Angle};

    ghost from_gives = { λ e s. s ≡ Angle (unvalued_of e) };

    fn from(fault: AngleFault) -> InlineStop {
        InlineStop::Angle(match fault {
            AngleFault::Form => AngleRefusal::NoForm,
            AngleFault::ZeroDivisor => AngleRefusal::ByZero,
            AngleFault::Range => AngleRefusal::TooLarge,
        })
    }
}
