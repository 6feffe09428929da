//! What names stand for, and what arguments name.

ghost use Rattle.std.specs.Prelude.{◌≡◌};
ghost use Rattle.qasm_check.specs.Meanings.{is_past_end, names_gate, is_other, names_register, operand_in};

use gate_library::Operand;

/// A register of wires or of classical bits.
#[derive(Clone, Copy, Debug, PartialEq, Eq)]
pub struct Register {
    pub quantum: bool,
    /// The number of its first wire or bit.
    pub first: u32,
    pub size: u32,
}

/// What a name stands for.
#[derive(Clone, Copy, Debug, PartialEq, Eq)]
pub enum Meaning {
    /// The gate of this number.
    Gate(usize),
    Register(Register),
}

/// Whether it is a gate.
pub fn names_gate(meaning: Option<Meaning>) -> bool
    ensures value { result ≡ names_gate meaning }
{
    matches!(meaning, Some(Meaning::Gate(_)))
}

/// Whether what should be a gate is a register.
pub fn names_register(meaning: Option<Meaning>) -> bool
    ensures value { result ≡ names_register meaning }
{
    matches!(meaning, Some(Meaning::Register(_)))
}

/// Whether what should be a register of wires, or of bits, is something else.
pub fn is_other(quantum: bool, meaning: Option<Meaning>) -> bool
    ensures value { result ≡ is_other quantum meaning }
{
    match meaning {
        Some(Meaning::Register(register)) => {
            if quantum {
                !register.quantum
            } else {
                register.quantum
            }
        }
        Some(Meaning::Gate(_)) => true,
        None => false,
    }
}

/// Whether it is a register, and the index isn't below its size.
pub fn is_past_end(meaning: Option<Meaning>, index: Option<u64>) -> bool
    ensures value { result ≡ is_past_end meaning index }
{
    match meaning {
        Some(Meaning::Register(register)) => match index {
            Some(index) => u64::from(register.size) <= index,
            None => false,
        },
        _ => false,
    }
}

/// What an argument names, where it names a register and its index is below the size.
pub fn operand_in(meaning: Option<Meaning>, index: Option<u64>) -> Option<Operand>
    ensures value { result ≡ operand_in meaning index }
{
    let Some(Meaning::Register(register)) = meaning else {
        return None;
    };
    let index = match index {
        None => None,
        Some(index) => {
            if index >= u64::from(register.size) {
                return None;
            }
            Some(index as u32)
        }
    };
    Some(Operand {
        first: register.first,
        size: register.size,
        index,
    })
}
