//! Conversion to a type.

ghost use Rattle.std.specs.Prelude.{◌≡◌, ◌≤◌, ◌<◌, ◌^◌};
ghost use Rattle.css_num.specs.Types.{bits_of, IsInRange};
ghost use Rattle.css_num.specs.Conversion.{modulo, representation, represented, converted};

use crate::types::{bits, half, is_signed};
use css_base::IntType;

/// The value modulo 2 to the type's bits, read as signed where the type is (C99 6.3.1.3).
pub fn convert(v: i128, to: IntType) -> i128
    ensures value { result ≡ converted to v }
    ensures in_range { IsInRange to result }
{
    from_bits(to_bits(v, to), to)
}

/// The two's complement representation of a value in the type's bits.
pub(crate) fn to_bits(v: i128, t: IntType) -> u64
    ensures value { result ≡ representation t v }
    ensures bound { result < 2 ^ bits_of t }
{
    low_bits(v, bits(t))
}

/// The value that a representation stands for.
pub(crate) fn from_bits(r: u64, t: IntType) -> i128
    ensures { result ≡ represented t r }
{
    let value = i128::from(r);
    if is_signed(t) && half(t) <= r {
        value - 2 * i128::from(half(t))
    } else {
        value
    }
}

/// The lowest bits of a value, as many as `count`.
fn low_bits(v: i128, count: u32) -> u64
    requires { count ≤ 64 }
    ensures { result ≡ modulo v (2 ^ count) }
{
    let mask = (1u128 << count) - 1;
    (v.cast_unsigned() & mask) as u64
}
