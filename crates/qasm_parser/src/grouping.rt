//! Which of two signs takes the part between them.

ghost use Rattle.std.specs.Prelude.{◌≡◌, nat_le};
ghost use Rattle.qasm_parser.specs.Expressions.{left_level, level};
ghost use Rattle.qasm_parser.specs.Tree.{Expression, binary, negated};

use angle_fraction::Binary;

/// Whether `a left b right c` is `(a left b) right c`, by the levels of the grammar; else it is `a left (b right c)`.
pub fn is_left_first(left: Binary, right: Binary) -> bool
    ensures grouped { (a b : Expression) → result ≡ nat_le (left_level right) (level (binary left a b)) }
{
    match left {
        Binary::Add | Binary::Sub => matches!(right, Binary::Add | Binary::Sub),
        Binary::Mul | Binary::Div | Binary::Pow => !matches!(right, Binary::Pow),
    }
}

/// Whether `-a sign b` is `(-a) sign b`, by the levels of the grammar; else it is `-(a sign b)`.
pub fn is_minus_first(sign: Binary) -> bool
    ensures grouped { (a : Expression) → result ≡ nat_le (left_level sign) (level (negated a)) }
{
    match sign {
        Binary::Add | Binary::Sub | Binary::Mul | Binary::Div => true,
        Binary::Pow => false,
    }
}
