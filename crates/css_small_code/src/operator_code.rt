//! What stands behind the operands of an operator.
ghost use Rattle.std.specs.Prelude.{◌≡◌};
ghost use Rattle.css_small_code.specs.Code as code;

use css_num::{BinOp, UnOp};
use css_vm::{Narrow, Op, ShiftWidth};

// A result of 64 bits as an int.
const AS_INT: Op = Op::Conv(Narrow::S32);

// The test whether the top is 0.
const IS_ZERO: &[Op] = &[Op::Push(0), Op::Eq];

/// Behind the operand of a unary operator.
pub fn unary_code(op: UnOp) -> &'static [Op]
    ensures { result.now ≡ code.unary_code op }
{
    match op {
        UnOp::Plus => &[],
        UnOp::Minus => &[Op::Neg, AS_INT],
        UnOp::Complement => &[Op::Not],
        UnOp::Not => IS_ZERO,
    }
}

/// Behind both operands of a binary operator.
pub fn binary_code(op: BinOp) -> &'static [Op]
    ensures { result.now ≡ code.binary_code op }
{
    match op {
        BinOp::Mul => &[Op::Mul, AS_INT],
        BinOp::Div => &[Op::Divs, AS_INT],
        BinOp::Rem => &[Op::Rems],
        BinOp::Add => &[Op::Add, AS_INT],
        BinOp::Sub => &[Op::Sub, AS_INT],
        BinOp::Shl => &[Op::Shl(ShiftWidth::W32), AS_INT],
        BinOp::Shr => &[Op::Shrs(ShiftWidth::W32)],
        BinOp::Lt => &[Op::Lts],
        BinOp::Gt => &[Op::Swap, Op::Lts],
        BinOp::Le => &[Op::Swap, Op::Lts, Op::Push(0), Op::Eq],
        BinOp::Ge => &[Op::Lts, Op::Push(0), Op::Eq],
        BinOp::Eq => &[Op::Eq],
        BinOp::Ne => &[Op::Ne],
        BinOp::And => &[Op::And],
        BinOp::Xor => &[Op::Xor],
        BinOp::Or => &[Op::Or],
    }
}
