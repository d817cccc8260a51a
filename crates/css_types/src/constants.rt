//! Values of constant expressions (C99 6.6).
ghost use Rattle.std.specs.Prelude.{◌≡◌};
ghost use Rattle.css_core.specs.Typed.{IsRightType};
ghost use Rattle.css_types.specs.Constants as spec;
ghost use Rattle.css_types.specs.Operands as operands;
ghost use Rattle.css_types.specs.Shapes.{constant};

use css_base::IntType;
use css_num::{BinOp, UnOp, binary, convert, promote, unary, usual};

/// The value of a constant expression.
#[derive(Clone, Copy, PartialEq, Eq, Debug)]
pub enum Constant {
    /// The expression is no constant one.
    Varies,
    /// Its evaluation divides by zero.
    Faults,
    Known(i128),
}

/// A constant that is converted to a type.
pub fn constant_in(t: IntType, k: Constant) -> Constant
    ensures { constant result ≡ spec.constant_in t (constant k) }
{
    match k {
        Constant::Known(v) => Constant::Known(convert(v, t)),
        _ => k,
    }
}

/// An operator with an operand of this type, which is promoted.
pub fn constant_unary(op: UnOp, t: IntType, k: Constant) -> Constant
    ensures { constant result ≡ spec.constant_unary op t (constant k) }
{
    match k {
        Constant::Known(v) => Constant::Known(unary(op, t, convert(v, t))),
        _ => k,
    }
}

/// An operator between operands of these types, which are not promoted yet.
pub fn binary_constant(op: BinOp, s: IntType, t: IntType, a: Constant, b: Constant) -> Constant
    ensures { constant result ≡ operands.binary_constant op s t (constant a) (constant b) }
{
    match op {
        BinOp::Shl | BinOp::Shr => between(op, promote(s), promote(t), a, b),
        _ => {
            let within = usual(s, t);
            between(op, within, within, a, b)
        }
    }
}

/// An operator between operands that are converted to these types, which are one but for a shift.
fn between(op: BinOp, left: IntType, right: IntType, a: Constant, b: Constant) -> Constant
    requires { IsRightType op left right }
    ensures { constant result ≡ spec.constant_binary op left right (constant a) (constant b) }
{
    match (a, b) {
        (Constant::Varies, _) | (_, Constant::Varies) => Constant::Varies,
        (Constant::Faults, _) | (_, Constant::Faults) => Constant::Faults,
        (Constant::Known(v), Constant::Known(w)) => {
            let v = convert(v, left);
            let w = convert(w, right);
            match binary(op, left, v, w) {
                Ok(value) => Constant::Known(value),
                Err(_) => Constant::Faults,
            }
        }
    }
}

/// `a && b`, or `a || b` where `by` is true. What isn't evaluated has to be constant, and may divide by zero.
pub fn decided(by: bool, a: Constant, b: Constant) -> Constant
    ensures { constant result ≡ spec.decided by (constant a) (constant b) }
{
    match (a, b) {
        (Constant::Varies, _) | (_, Constant::Varies) => Constant::Varies,
        (Constant::Faults, _) => Constant::Faults,
        (Constant::Known(v), _) => match (by, v == 0) {
            (true, false) => Constant::Known(1),
            (false, true) => Constant::Known(0),
            _ => constant_test(b),
        },
    }
}

/// A constant as 0 or 1.
fn constant_test(k: Constant) -> Constant
    ensures { constant result ≡ spec.constant_test (constant k) }
{
    match k {
        Constant::Known(v) => Constant::Known(i128::from(v != 0)),
        _ => k,
    }
}

/// `c ? a : b`. What isn't evaluated has to be constant, and may divide by zero.
pub fn chosen(c: Constant, a: Constant, b: Constant) -> Constant
    ensures { constant result ≡ spec.chosen (constant c) (constant a) (constant b) }
{
    match (c, a, b) {
        (Constant::Varies, _, _) | (_, Constant::Varies, _) | (_, _, Constant::Varies) => {
            Constant::Varies
        }
        (Constant::Faults, _, _) => Constant::Faults,
        _ => { if is_zero(c) { b } else { a } }
    }
}

/// Whether a constant is 0, as a null constant is.
pub fn is_zero(k: Constant) -> bool
    ensures { result ≡ spec.is_zero (constant k) }
{
    match k {
        Constant::Known(v) => v == 0,
        _ => false,
    }
}
