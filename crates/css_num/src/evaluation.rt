//! The values of the operators.

ghost use Rattle.std.specs.Prelude.{◌≡◌, ◌↔◌, pos, IsTrue, IfOk, IsErr};
ghost use Rattle.std.specs.Result.{result_ok};
ghost use Rattle.css_num.specs.Types.{IsInRange};
ghost use Rattle.css_num.specs.Operators.{truth_value, unary_type, unary_value, binary_type, binary_value, is_division, IsRightOperand};

use crate::arithmetic::{
    complement_of, difference_of, negative_of, product_of, quotient_of, remainder_of, sum_of,
};
use crate::conversion::{from_bits, to_bits};
use crate::operators::{BinOp, DivideByZero, UnOp};
use crate::shifts::{left_shift, right_shift};
use css_base::IntType;

/// The value of a unary operator at a value of the promoted type `t`: a value of `t`, or for `!`
/// the `int` 0 or 1.
pub fn unary(op: UnOp, t: IntType, v: i128) -> i128
    requires { IsInRange t v }
    ensures value { result ≡ unary_value op t v }
    ensures in_range { IsInRange (unary_type op t) result }
{
    match op {
        UnOp::Plus => v,
        UnOp::Minus => negative_of(t, v),
        UnOp::Complement => complement_of(t, v),
        UnOp::Not => truth(v == 0),
    }
}

/// The value of a binary operator at two values of type `t`, to which the usual conversions led:
/// a value of `t`, or for a comparison the `int` 0 or 1. A shift's `t` is the promoted type of `a`,
/// and its `b` any value of an integer type. Fails with `DivideByZero` at `/` and `%` where `b` is
/// zero, and nowhere else.
pub fn binary(op: BinOp, t: IntType, a: i128, b: i128) -> Result<i128, DivideByZero>
    requires left { IsInRange t a }
    requires right { IsRightOperand op t b }
    ensures value { result_ok result ≡ binary_value op t a b }
    ensures in_range { IfOk result (IsInRange (binary_type op t)) }
    ensures divide_by_zero { IsErr result ↔ (IsTrue (is_division op) × (b ≡ pos 0)) }
{
    match op {
        BinOp::Mul => Ok(product_of(t, a, b)),
        BinOp::Div => quotient_of(t, a, b),
        BinOp::Rem => remainder_of(t, a, b),
        BinOp::Add => Ok(sum_of(t, a, b)),
        BinOp::Sub => Ok(difference_of(t, a, b)),
        BinOp::Shl => Ok(left_shift(t, a, b)),
        BinOp::Shr => Ok(right_shift(t, a, b)),
        BinOp::Lt => Ok(truth(a < b)),
        BinOp::Gt => Ok(truth(a > b)),
        BinOp::Le => Ok(truth(a <= b)),
        BinOp::Ge => Ok(truth(a >= b)),
        BinOp::Eq => Ok(truth(a == b)),
        BinOp::Ne => Ok(truth(a != b)),
        BinOp::And => Ok(from_bits(to_bits(a, t) & to_bits(b, t), t)),
        BinOp::Xor => Ok(from_bits(to_bits(a, t) ^ to_bits(b, t), t)),
        BinOp::Or => Ok(from_bits(to_bits(a, t) | to_bits(b, t), t)),
    }
}

/// The `int` of a test.
fn truth(holds: bool) -> i128
    ensures { result ≡ truth_value holds }
{
    i128::from(holds)
}
