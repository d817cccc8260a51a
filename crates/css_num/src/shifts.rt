//! `<<` and `>>`.

ghost use Rattle.std.specs.Prelude.{◌≡◌, ◌<◌};
ghost use Rattle.css_num.specs.Types.{IsInRange, bits_of};
ghost use Rattle.css_num.specs.Operators.{count_of, shifted_left, shifted_right};

use crate::conversion::convert;
use crate::types::bits;
use css_base::IntType;

/// `a` times 2 to the count, converted to the type.
pub(crate) fn left_shift(t: IntType, a: i128, b: i128) -> i128
    ensures { result ≡ shifted_left t a b }
{
    convert(a << shift_count(t, b), t)
}

/// `a` divided by 2 to the count, rounded down: the sign stays.
pub(crate) fn right_shift(t: IntType, a: i128, b: i128) -> i128
    ensures { result ≡ shifted_right t a b }
{
    a >> shift_count(t, b)
}

/// The count of a shift: modulo the width of the type.
fn shift_count(t: IntType, b: i128) -> u32
    ensures value { result ≡ count_of t b }
    ensures bound { result < bits_of t }
{
    b.rem_euclid(i128::from(bits(t))) as u32
}
