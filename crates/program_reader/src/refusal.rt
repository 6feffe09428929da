//! Why a text is refused.

use qasm_lexer::LexFault;
use qasm_parser::ParseFault;
use std::alloc::AllocError;
use thiserror::Error;

/// The first refusal of a text. A place is an offset in bytes, a statement is counted from 1.
#[derive(Clone, Copy, Debug, PartialEq, Eq)]
pub enum ProgramRefusal {
    /// The text has more than 4,194,304 bytes; only where that is a limit, as for `read_program`.
    TooLong,
    /// At this place no token, white space or comment begins.
    BadByte { place: u32 },
    /// The number at this place is out of range: with common factors cancelled, its numerator or denominator is above 2^62.
    Number { place: u32 },
    /// The tokens spell no program; the place is that of the first token that fits nothing, or the text's length.
    Syntax { place: u32 },
    /// The program's version, at this place, isn't 2.
    Version { place: u32 },
    /// The expression that begins at this place is deeper than 64.
    Depth { place: u32 },
    /// A statement is refused by the checks.
    Check(qasm_check::CheckRefused),
    /// A statement's gates can't be written out.
    Inline(gate_inline::InlineRefused),
}

impl ProgramRefusal {
    ghost use Rattle.std.specs.Prelude.{◌≡◌};
    ghost use Rattle.program_reader.specs.Refusals.{at_of, code_of};

    /// The number under which the refusal is told: 60, one from 10 to 14, or that of the statement's refusal.
    pub fn code(self) -> u8
        ensures value { result ≡ code_of self }
    {
        match self {
            ProgramRefusal::TooLong => 60,
            ProgramRefusal::BadByte { .. } => 10,
            ProgramRefusal::Number { .. } => 11,
            ProgramRefusal::Syntax { .. } => 12,
            ProgramRefusal::Version { .. } => 13,
            ProgramRefusal::Depth { .. } => 14,
            ProgramRefusal::Check(refused) => refused.refusal.code(),
            ProgramRefusal::Inline(refused) => refused.refusal.code(),
        }
    }

    /// Its place in the text, or its statement, counted from 1; 0 where the text is too long.
    pub fn at(self) -> u32
        ensures value { result ≡ at_of self }
    {
        match self {
            ProgramRefusal::TooLong => 0,
            ProgramRefusal::BadByte { place }
            | ProgramRefusal::Number { place }
            | ProgramRefusal::Syntax { place }
            | ProgramRefusal::Version { place }
            | ProgramRefusal::Depth { place } => place,
            ProgramRefusal::Check(refused) => refused.statement,
            ProgramRefusal::Inline(refused) => refused.statement,
        }
    }
}

/// Why there is no program.
#[derive(Clone, Copy, Debug, PartialEq, Eq, Error)]
pub enum ProgramFault {
    /// The text is refused.
    #[error("the program is refused: {0:?}")]
    Refused(ProgramRefusal),
    /// There is no memory for the program.
    #[error("out of memory")]
    NoMemory,
}

impl From<AllocError> for ProgramFault {
    ghost use Rattle.std.specs.Prelude.{◌≡◌};
    ghost use Rattle.program_reader.specs.declared.refusal.ProgramFault.TheVariants.{NoMemory};

    ghost from_gives = { λ _ f. f ≡ NoMemory };

    fn from(_error: AllocError) -> ProgramFault {
        ProgramFault::NoMemory
    }
}

impl From<LexFault> for ProgramFault {
    ghost use Rattle.std.specs.Prelude.{◌≡◌};
    ghost use Rattle.program_reader.specs.Refusals.{lex_fault};

    ghost from_gives = { λ e f. f ≡ lex_fault e };

    fn from(fault: LexFault) -> ProgramFault {
        match fault {
            LexFault::BadByte { place } => ProgramFault::Refused(ProgramRefusal::BadByte { place }),
            LexFault::Number { place } => ProgramFault::Refused(ProgramRefusal::Number { place }),
            LexFault::NoMemory => ProgramFault::NoMemory,
        }
    }
}

impl From<ParseFault> for ProgramFault {
    ghost use Rattle.std.specs.Prelude.{◌≡◌};
    ghost use Rattle.program_reader.specs.Refusals.{parse_fault};

    ghost from_gives = { λ e f. f ≡ parse_fault e };

    fn from(fault: ParseFault) -> ProgramFault {
        match fault {
            ParseFault::Syntax { place } => ProgramFault::Refused(ProgramRefusal::Syntax { place }),
            ParseFault::Version { place } => ProgramFault::Refused(ProgramRefusal::Version {
                place,
            }),
            ParseFault::Depth { place } => ProgramFault::Refused(ProgramRefusal::Depth { place }),
            ParseFault::NoMemory => ProgramFault::NoMemory,
        }
    }
}
