//! An expression that is being read, with its depth.

ghost use Rattle.std.specs.Prelude.{◌≡◌, ◌≤◌};
ghost use Rattle.qasm_parser.specs.Tree.{depth as depth_of, most_depth, expression, number as tree_number};

use crate::tree::Expr;
use angle_fraction::Frac;

/// The depth of the deepest expression that is accepted.
pub const MOST_DEPTH: u32 = 64;

/// An expression and its depth.
#[derive(Drop)]
pub struct Part {
    pub tree: Expr,
    pub depth: u32,
    ghost exact: { depth ≡ depth_of (expression tree) },
    ghost shallow: { depth ≤ most_depth },
}

/// An expression of depth 1.
pub fn atom(tree: Expr) -> Part
    requires atom { depth_of (expression tree) ≡ 1 }
    ensures value { result.tree ≡ tree }
{
    Part { tree, depth: 1 }
}

/// A number.
pub fn number(value: Frac) -> Part
    ensures value { expression result.tree ≡ tree_number value }
{
    atom(Expr::Number(value))
}
