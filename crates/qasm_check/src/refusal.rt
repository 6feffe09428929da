//! Why a program is refused.

ghost use Rattle.std.specs.Prelude.{◌≡◌};

use std::alloc::AllocError;
use thiserror::Error;

/// What is wrong with a statement.
#[derive(Clone, Copy, Debug, PartialEq, Eq)]
pub enum CheckRefusal {
    /// An include of another text than `qelib1.inc`, or a second one.
    Include,
    /// A name that is declared already, or that a gate table has; or one name for two of a gate's parameters and qubits.
    NameTaken,
    /// A name that stands for nothing.
    UnknownName,
    /// A name that stands for something else than is wanted: a gate, qubits or classical bits.
    WrongKind,
    /// An index that isn't below its register's size.
    IndexRange,
    /// A register of size 0.
    EmptyRegister,
    /// Another number of angles than the gate has.
    ParamCount,
    /// Another number of arguments than the gate has qubits.
    QubitCount,
    /// Two whole registers of different sizes, or a measure of a register into one bit or the other way round.
    SizeDiffers,
    /// A gate on one qubit twice.
    RepeatedQubit,
    /// A conditional statement.
    Conditional,
    /// A reset.
    Reset,
    /// An application of a gate that has no body.
    OpaqueApplied,
    /// A gate on a qubit that was measured before.
    AfterMeasure,
    /// With this register there are more qubits than the limit.
    TooManyQubits,
    /// With this register there are more classical bits than the limit.
    TooManyBits,
}

impl CheckRefusal {
    ghost use Rattle.qasm_check.specs.Refusals.{code as code_of};

    /// The refusal's number, from 20 to 35.
    pub fn code(self) -> u8
        ensures value { result ≡ code_of self }
    {
        match self {
            CheckRefusal::Include => 20,
            CheckRefusal::NameTaken => 21,
            CheckRefusal::UnknownName => 22,
            CheckRefusal::WrongKind => 23,
            CheckRefusal::IndexRange => 24,
            CheckRefusal::EmptyRegister => 25,
            CheckRefusal::ParamCount => 26,
            CheckRefusal::QubitCount => 27,
            CheckRefusal::SizeDiffers => 28,
            CheckRefusal::RepeatedQubit => 29,
            CheckRefusal::Conditional => 30,
            CheckRefusal::Reset => 31,
            CheckRefusal::OpaqueApplied => 32,
            CheckRefusal::AfterMeasure => 33,
            CheckRefusal::TooManyQubits => 34,
            CheckRefusal::TooManyBits => 35,
        }
    }
}

/// The first statement that has a refusal, counted from 1, and its refusal of the least code.
#[derive(Clone, Copy, Debug, PartialEq, Eq)]
pub struct CheckRefused {
    pub refusal: CheckRefusal,
    pub statement: u32,
}

impl From<AllocError> for CheckFault {
    ghost use Rattle.std.specs.Prelude.{◌≡◌};
    ghost use Rattle.qasm_check.specs.declared.refusal.CheckFault.TheVariants.{NoMemory};

    ghost from_gives = { λ _ e. e ≡ NoMemory };

    fn from(_error: AllocError) -> CheckFault {
        CheckFault::NoMemory
    }
}

/// Why there is no checked program.
#[derive(Clone, Copy, Debug, PartialEq, Eq, Error)]
pub enum CheckFault {
    /// A statement is refused.
    #[error("statement {} is refused: {:?}", .0.statement, .0.refusal)]
    Refused(CheckRefused),
    /// There is no memory for the checks.
    #[error("out of memory")]
    NoMemory,
}
