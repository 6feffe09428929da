//! Arguments outside bodies, and what they name.

ghost use Rattle.std.specs.Prelude.{◌≡◌, ◌++◌, IfOk, OnOk};
ghost use Rattle.std.specs.Option.{option_to_list};
ghost use Rattle.qasm_check.specs.Arguments.{operand};
ghost use Rattle.qasm_check.specs.Naming.{AreNamed};
ghost use Rattle.qasm_check.specs.State.{state};

use crate::known::Known;
use crate::meaning::{is_other, is_past_end, operand_in};
use gate_library::Operand;
use qasm_parser::Arg;
use smallvec::SmallVec;
use std::alloc::{AllocError, Global};

/// What it names.
pub fn operand<'a>(known: &Known<'a>, arg: &'a Arg) -> Option<Operand>
    ensures value { result ≡ operand (state known.now) arg.now }
{
    operand_in(known.meaning(arg.name.as_bytes()), arg.index)
}

/// What some arguments name, and what is wrong with them.
#[derive(Drop)]
pub struct NamedArgs {
    /// Whether a name stands for nothing.
    pub unknown: bool,
    /// Whether one names something else than a register of wires.
    pub wrong: bool,
    /// Whether an index isn't below its register's size.
    pub beyond: bool,
    /// What they name, in order.
    pub operands: SmallVec<Operand, 2>,
}

/// Puts what an argument names, where it names something, behind the others.
fn add(operands: &mut SmallVec<Operand, 2>, operand: Option<Operand>) -> Result<(), AllocError>
    ensures { OnOk result (operands.new.items ≡ operands.old.items ++ option_to_list operand) }
{
    match operand {
        Some(operand) => Ok(operands.push(operand)?),
        None => Ok(()),
    }
}

/// What the arguments name: each name is looked up once.
#[tactic(auto, using(crate::proofs::LoopLaws::loops))]
pub fn named<'a>(alloc: Global, known: &Known<'a>, args: &'a [Arg]) -> Result<NamedArgs, AllocError>
    ensures ok { IfOk result (AreNamed (state known.now) args.now) }
{
    let mut unknown = false;
    let mut wrong = false;
    let mut beyond = false;
    let mut operands = SmallVec::new(alloc);
    operands.reserve(args.len())?;
    'each: for arg in args {
        let found = known.meaning(arg.name.as_bytes());
        unknown |= found.is_none();
        wrong |= is_other(true, found);
        beyond |= is_past_end(found, arg.index);
        add(&mut operands, operand_in(found, arg.index))?;
    }
    Ok(NamedArgs {
        unknown,
        wrong,
        beyond,
        operands,
    })
}
