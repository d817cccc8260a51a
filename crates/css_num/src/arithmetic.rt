//! `*`, `/`, `%`, `+`, `-` and `~`: the exact result, converted to the type.

ghost use Rattle.std.specs.Prelude.{◌≡◌, ◌↔◌, pos, negsuc, neg_ℤ, ◌+ℤ◌, ◌-ℤ◌, ◌*ℤ◌, IsErr};
ghost use Rattle.std.specs.Result.{result_ok};
ghost use Rattle.css_num.specs.Types.{IsInRange};
ghost use Rattle.css_num.specs.Conversion.{converted};
ghost use Rattle.css_num.specs.Operators.{quotient, remainder, unless_zero};

use crate::conversion::convert;
use crate::operators::DivideByZero;
use css_base::IntType;

pub(crate) fn negative_of(t: IntType, v: i128) -> i128
    requires { IsInRange t v }
    ensures { result ≡ converted t (neg_ℤ v) }
{
    convert(-v, t)
}

/// Each bit inverted, which is -1 - v.
pub(crate) fn complement_of(t: IntType, v: i128) -> i128
    requires { IsInRange t v }
    ensures { result ≡ converted t (negsuc 0 -ℤ v) }
{
    convert(-1 - v, t)
}

pub(crate) fn sum_of(t: IntType, a: i128, b: i128) -> i128
    requires left { IsInRange t a }
    requires right { IsInRange t b }
    ensures { result ≡ converted t (a +ℤ b) }
{
    convert(a + b, t)
}

pub(crate) fn difference_of(t: IntType, a: i128, b: i128) -> i128
    requires left { IsInRange t a }
    requires right { IsInRange t b }
    ensures { result ≡ converted t (a -ℤ b) }
{
    convert(a - b, t)
}

// The product may need 128 bits without a sign. What wraps is lost to the conversion too.
pub(crate) fn product_of(t: IntType, a: i128, b: i128) -> i128
    ensures { result ≡ converted t (a *ℤ b) }
{
    convert(a.wrapping_mul(b), t)
}

/// The quotient, rounded toward zero. The least value divided by -1 wraps to itself.
pub(crate) fn quotient_of(t: IntType, a: i128, b: i128) -> Result<i128, DivideByZero>
    requires { IsInRange t a }
    ensures value { result_ok result ≡ unless_zero b (quotient t a b) }
    ensures divide_by_zero { IsErr result ↔ (b ≡ pos 0) }
{
    if b == 0 {
        return Err(DivideByZero);
    }
    Ok(convert(a / b, t))
}

/// What the quotient leaves, with the sign of `a`.
pub(crate) fn remainder_of(t: IntType, a: i128, b: i128) -> Result<i128, DivideByZero>
    requires { IsInRange t a }
    ensures value { result_ok result ≡ unless_zero b (remainder t a b) }
    ensures divide_by_zero { IsErr result ↔ (b ≡ pos 0) }
{
    if b == 0 {
        return Err(DivideByZero);
    }
    Ok(a % b)
}
