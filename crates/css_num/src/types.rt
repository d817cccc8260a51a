//! The bits, signs, ranks and ranges of the integer types.

ghost use Rattle.std.specs.Prelude.{◌≡◌, ◌↔◌, ◌≤◌, IsTrue, pos};
ghost use Rattle.css_num.specs.Types.{bits_of, has_sign, rank_of, unsigned_kin, half_of, least, greatest, IsInRange};

use css_base::IntType;

/// How many bits a value of the type has.
pub fn bits(t: IntType) -> u32
    ensures { result ≡ bits_of t }
{
    match t {
        IntType::UChar | IntType::SChar => 8,
        IntType::Short | IntType::UShort => 16,
        IntType::Int | IntType::UInt | IntType::Long | IntType::ULong => 32,
        IntType::LongLong | IntType::ULongLong => 64,
    }
}

/// Whether the type has negative values.
pub fn is_signed(t: IntType) -> bool
    ensures { result ≡ has_sign t }
{
    match t {
        IntType::SChar | IntType::Short | IntType::Int | IntType::Long | IntType::LongLong => true,
        IntType::UChar | IntType::UShort | IntType::UInt | IntType::ULong | IntType::ULongLong => {
            false
        }
    }
}

/// The rank of the type (C99 6.3.1.1), which rises from `char` to `long long`.
pub(crate) fn rank(t: IntType) -> u32
    ensures { result ≡ rank_of t }
{
    match t {
        IntType::UChar | IntType::SChar => 1,
        IntType::Short | IntType::UShort => 2,
        IntType::Int | IntType::UInt => 3,
        IntType::Long | IntType::ULong => 4,
        IntType::LongLong | IntType::ULongLong => 5,
    }
}

/// The unsigned type of the same rank.
pub(crate) fn to_unsigned(t: IntType) -> IntType
    ensures { result ≡ unsigned_kin t }
{
    match t {
        IntType::UChar | IntType::SChar => IntType::UChar,
        IntType::Short | IntType::UShort => IntType::UShort,
        IntType::Int | IntType::UInt => IntType::UInt,
        IntType::Long | IntType::ULong => IntType::ULong,
        IntType::LongLong | IntType::ULongLong => IntType::ULongLong,
    }
}

/// What the highest bit of the type is worth: half of 2 to its bits.
pub(crate) fn half(t: IntType) -> u64
    ensures { result ≡ half_of t }
{
    match t {
        IntType::UChar | IntType::SChar => 0x80,
        IntType::Short | IntType::UShort => 0x8000,
        IntType::Int | IntType::UInt | IntType::Long | IntType::ULong => 0x8000_0000,
        IntType::LongLong | IntType::ULongLong => 0x8000_0000_0000_0000,
    }
}

/// Whether the type has the value.
pub fn is_in_range(v: i128, t: IntType) -> bool
    ensures { IsTrue result ↔ IsInRange t v }
{
    min_value(t) <= v && v <= max_value(t)
}

fn min_value(t: IntType) -> i128
    ensures { result ≡ least t }
{
    if is_signed(t) {
        -i128::from(half(t))
    } else {
        0
    }
}

fn max_value(t: IntType) -> i128
    ensures { result ≡ greatest t }
{
    if is_signed(t) {
        i128::from(half(t)) - 1
    } else {
        2 * i128::from(half(t)) - 1
    }
}
