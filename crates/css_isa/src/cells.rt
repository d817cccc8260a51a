//! What instructions make of cells.
ghost use Rattle.std.specs.Prelude.{◌≡◌, ◌<◌};
ghost use Rattle.css_isa.specs.Cells.{sum_of, difference_of, product_of, negative_of, complement_of, quotient_of, remainder_of, unsigned_quotient_of, unsigned_remainder_of, shifted_left, shifted_right, unsigned_shifted_right, are_equal, differ, is_below, is_unsigned_below, narrowed, width_of};

use crate::code::{Narrow, ShiftWidth};

/// The sum, which wraps.
#[inline]
pub fn sum(a: u64, b: u64) -> u64
    ensures { result ≡ sum_of a b }
{
    a.wrapping_add(b)
}

/// The difference, which wraps.
#[inline]
pub fn difference(a: u64, b: u64) -> u64
    ensures { result ≡ difference_of a b }
{
    a.wrapping_sub(b)
}

/// The product, which wraps.
#[inline]
pub fn product(a: u64, b: u64) -> u64
    ensures { result ≡ product_of a b }
{
    a.wrapping_mul(b)
}

/// The negative, which wraps.
#[inline]
pub fn negative(a: u64) -> u64
    ensures { result ≡ negative_of a }
{
    0u64.wrapping_sub(a)
}

/// Each bit inverted.
#[inline]
pub fn complement(a: u64) -> u64
    ensures { result ≡ complement_of a }
{
    !a
}

/// The quotient of two signed cells, rounded toward zero. The least value divided by -1 wraps to itself.
#[inline]
pub fn quotient(a: u64, b: u64) -> u64
    requires { 0 < b }
    ensures { result ≡ quotient_of a b }
{
    let quotient = a.cast_signed().wrapping_div(b.cast_signed());
    quotient.cast_unsigned()
}

/// What that quotient leaves, with the sign of `a`.
#[inline]
pub fn remainder(a: u64, b: u64) -> u64
    requires { 0 < b }
    ensures { result ≡ remainder_of a b }
{
    let remainder = a.cast_signed().wrapping_rem(b.cast_signed());
    remainder.cast_unsigned()
}

/// The quotient of two cells without signs.
#[inline]
pub fn unsigned_quotient(a: u64, b: u64) -> u64
    requires { 0 < b }
    ensures { result ≡ unsigned_quotient_of a b }
{
    a / b
}

/// What that quotient leaves.
#[inline]
pub fn unsigned_remainder(a: u64, b: u64) -> u64
    requires { 0 < b }
    ensures { result ≡ unsigned_remainder_of a b }
{
    a % b
}

/// `a` times 2 to the count, without the bits above the 64th.
#[inline]
pub fn left_shift(width: ShiftWidth, a: u64, b: u64) -> u64
    ensures { result ≡ shifted_left width a b }
{
    a << (b % bits(width))
}

/// `a` as signed, divided by 2 to the count and rounded down: the sign stays.
#[inline]
pub fn right_shift(width: ShiftWidth, a: u64, b: u64) -> u64
    ensures { result ≡ shifted_right width a b }
{
    (a.cast_signed() >> (b % bits(width))).cast_unsigned()
}

/// `a` without sign, divided by 2 to the count and rounded down.
#[inline]
pub fn unsigned_right_shift(width: ShiftWidth, a: u64, b: u64) -> u64
    ensures { result ≡ unsigned_shifted_right width a b }
{
    a >> (b % bits(width))
}

/// 1 where the two are equal, else 0.
#[inline]
pub fn equal(a: u64, b: u64) -> u64
    ensures { result ≡ are_equal a b }
{
    u64::from(a == b)
}

/// 1 where the two differ, else 0.
#[inline]
pub fn different(a: u64, b: u64) -> u64
    ensures { result ≡ differ a b }
{
    u64::from(a != b)
}

/// 1 where `a` is below `b`, both signed, else 0.
#[inline]
pub fn below(a: u64, b: u64) -> u64
    ensures { result ≡ is_below a b }
{
    u64::from(a.cast_signed() < b.cast_signed())
}

/// 1 where `a` is below `b`, both without signs, else 0.
#[inline]
pub fn unsigned_below(a: u64, b: u64) -> u64
    ensures { result ≡ is_unsigned_below a b }
{
    u64::from(a < b)
}

/// The low bits of a cell, extended to 64 by their sign where the type has one.
#[inline]
pub fn narrow(to: Narrow, a: u64) -> u64
    ensures { result ≡ narrowed to a }
{
    match to {
        Narrow::U8 => a % 0x100,
        Narrow::S8 => i64::from(((a % 0x100) as u8).cast_signed()).cast_unsigned(),
        Narrow::U16 => a % 0x1_0000,
        Narrow::S16 => i64::from(((a % 0x1_0000) as u16).cast_signed()).cast_unsigned(),
        Narrow::U32 => a % 0x1_0000_0000,
        Narrow::S32 => i64::from(((a % 0x1_0000_0000) as u32).cast_signed()).cast_unsigned(),
    }
}

#[inline]
fn bits(width: ShiftWidth) -> u64
    ensures { result ≡ width_of width }
{
    match width {
        ShiftWidth::W32 => 32,
        ShiftWidth::W64 => 64,
    }
}
