//! Values are those of C99's rules with the widths of the types and wrapping signed results.

use crate::checks::{check, check_row};
use css_base::IntType::{
    self, Int, Long, LongLong, SChar, Short, UChar, UInt, ULong, ULongLong, UShort,
};
use css_num::{
    BinOp, DivideByZero, UnOp, binary, bits, convert, is_in_range, is_signed, promote, unary, usual,
};
use std::process::Abort;

static TYPES: [IntType; 10] = [
    UChar, SChar, Short, UShort, Int, UInt, Long, ULong, LongLong, ULongLong,
];

const INT_MIN: i128 = -2147483648;

const INT_MAX: i128 = 2147483647;

const UINT_MAX: i128 = 4294967295;

const LONG_LONG_MIN: i128 = -9223372036854775808;

const LONG_LONG_MAX: i128 = 9223372036854775807;

const ULONG_LONG_MAX: i128 = 18446744073709551615;

static RANGES: [(IntType, u32, bool, i128, i128); 10] = [
    (UChar, 8, false, 0, 255),
    (SChar, 8, true, -128, 127),
    (Short, 16, true, -32768, 32767),
    (UShort, 16, false, 0, 65535),
    (Int, 32, true, INT_MIN, INT_MAX),
    (UInt, 32, false, 0, UINT_MAX),
    (Long, 32, true, INT_MIN, INT_MAX),
    (ULong, 32, false, 0, UINT_MAX),
    (LongLong, 64, true, LONG_LONG_MIN, LONG_LONG_MAX),
    (ULongLong, 64, false, 0, ULONG_LONG_MAX),
];

fn has_range(row: &(IntType, u32, bool, i128, i128)) -> bool {
    let (t, width, sign, least, greatest) = row;
    bits(*t) == *width
        && is_signed(*t) == *sign
        && is_in_range(*least, *t)
        && is_in_range(0, *t)
        && is_in_range(*greatest, *t)
        && !is_in_range(least.wrapping_sub(1), *t)
        && !is_in_range(greatest.wrapping_add(1), *t)
}

#[test]
fn types_have_their_ranges(rt: HostRuntime) {
    for (row, each) in RANGES.iter().enumerate() {
        check_row(&rt, row, has_range(each));
    }
}

static VALUES: [i128; 7] = [-1, 255, 256, 1 << 31, 1 << 32, 1 << 63, ULONG_LONG_MAX];

// For each type what it makes of those values.
static CONVERTED: [(IntType, [i128; 7]); 10] = [
    (UChar, [255, 255, 0, 0, 0, 0, 255]),
    (SChar, [-1, -1, 0, 0, 0, 0, -1]),
    (Short, [-1, 255, 256, 0, 0, 0, -1]),
    (UShort, [65535, 255, 256, 0, 0, 0, 65535]),
    (Int, [-1, 255, 256, INT_MIN, 0, 0, -1]),
    (UInt, [UINT_MAX, 255, 256, 2147483648, 0, 0, UINT_MAX]),
    (Long, [-1, 255, 256, INT_MIN, 0, 0, -1]),
    (ULong, [UINT_MAX, 255, 256, 2147483648, 0, 0, UINT_MAX]),
    (
        LongLong,
        [-1, 255, 256, 2147483648, 4294967296, LONG_LONG_MIN, -1],
    ),
    (
        ULongLong,
        [
            ULONG_LONG_MAX,
            255,
            256,
            2147483648,
            4294967296,
            9223372036854775808,
            ULONG_LONG_MAX,
        ],
    ),
];

fn are_converted(t: IntType, wanted: &[i128]) -> bool {
    let mut right = true;
    for (v, want) in VALUES.iter().zip(wanted.iter()) {
        right = right && convert(*v, t) == *want;
    }
    right
}

#[test]
fn conversions_keep_the_low_bits(rt: HostRuntime) {
    for (row, (t, wanted)) in CONVERTED.iter().enumerate() {
        check_row(&rt, row, are_converted(*t, wanted.as_slice()));
    }
}

// What each type is promoted to, which is also its common type with each type up to int.
static PROMOTED: [IntType; 10] = [
    Int, Int, Int, Int, Int, UInt, Long, ULong, LongLong, ULongLong,
];

#[test]
fn promotion_stops_at_int(rt: HostRuntime) {
    for (row, (t, want)) in TYPES.iter().zip(PROMOTED.iter()).enumerate() {
        check_row(&rt, row, promote(*t) == *want);
    }
}

// The common types of the types above int.
static OF_UINT: [IntType; 10] = [
    UInt, UInt, UInt, UInt, UInt, UInt, ULong, ULong, LongLong, ULongLong,
];

static OF_LONG: [IntType; 10] = [
    Long, Long, Long, Long, Long, ULong, Long, ULong, LongLong, ULongLong,
];

static OF_ULONG: [IntType; 10] = [
    ULong, ULong, ULong, ULong, ULong, ULong, ULong, ULong, LongLong, ULongLong,
];

static OF_LONG_LONG: [IntType; 10] = [
    LongLong, LongLong, LongLong, LongLong, LongLong, LongLong, LongLong, LongLong, LongLong,
    ULongLong,
];

static OF_ULONG_LONG: [IntType; 10] = [ULongLong; 10];

fn are_usual(a: IntType, wanted: &[IntType]) -> bool {
    let mut right = true;
    for (b, want) in TYPES.iter().zip(wanted.iter()) {
        right = right && usual(a, *b) == *want;
    }
    right
}

#[test]
fn usual_conversions_of_all_pairs(rt: HostRuntime) {
    check(&rt, "unsigned char", are_usual(UChar, PROMOTED.as_slice()));
    check(&rt, "signed char", are_usual(SChar, PROMOTED.as_slice()));
    check(&rt, "short", are_usual(Short, PROMOTED.as_slice()));
    check(
        &rt,
        "unsigned short",
        are_usual(UShort, PROMOTED.as_slice()),
    );
    check(&rt, "int", are_usual(Int, PROMOTED.as_slice()));
    check(&rt, "unsigned", are_usual(UInt, OF_UINT.as_slice()));
    check(&rt, "long", are_usual(Long, OF_LONG.as_slice()));
    check(&rt, "unsigned long", are_usual(ULong, OF_ULONG.as_slice()));
    check(
        &rt,
        "long long",
        are_usual(LongLong, OF_LONG_LONG.as_slice()),
    );
    check(
        &rt,
        "unsigned long long",
        are_usual(ULongLong, OF_ULONG_LONG.as_slice()),
    );
}

static UNARY: [(UnOp, IntType, i128, i128); 15] = [
    (UnOp::Plus, Int, -5, -5),
    (UnOp::Minus, Int, 5, -5),
    (UnOp::Minus, Int, INT_MIN, INT_MIN),
    (UnOp::Minus, UInt, 0, 0),
    (UnOp::Minus, UInt, 1, UINT_MAX),
    (UnOp::Minus, LongLong, LONG_LONG_MIN, LONG_LONG_MIN),
    (UnOp::Minus, ULongLong, 1, ULONG_LONG_MAX),
    (UnOp::Complement, Int, 0, -1),
    (UnOp::Complement, Int, INT_MIN, INT_MAX),
    (UnOp::Complement, UInt, 0, UINT_MAX),
    (UnOp::Complement, ULong, 4294901760, 65535),
    (UnOp::Complement, ULongLong, 0, ULONG_LONG_MAX),
    (UnOp::Not, Int, 0, 1),
    (UnOp::Not, Int, -1, 0),
    (UnOp::Not, ULongLong, ULONG_LONG_MAX, 0),
];

fn is_unary(row: &(UnOp, IntType, i128, i128)) -> bool {
    let (op, t, v, want) = row;
    is_in_range(*v, *t) && unary(*op, *t, *v) == *want
}

#[test]
fn unary_operators(rt: HostRuntime) {
    for (row, each) in UNARY.iter().enumerate() {
        check_row(&rt, row, is_unary(each));
    }
}

type Row = (BinOp, IntType, i128, i128, i128);

#[tactic(auto, using(css_num::proofs::Operands::right_operand))]
fn is_binary(row: &Row) -> bool {
    let (op, t, a, b, want) = row;
    is_in_range(*a, *t) && is_in_range(*b, *t) && binary(*op, *t, *a, *b) == Ok(*want)
}

fn check_rows(rt: &impl Abort, rows: &[Row]) {
    for (row, each) in rows.iter().enumerate() {
        check_row(rt, row, is_binary(each));
    }
}

static SUMS: [Row; 17] = [
    (BinOp::Add, Int, INT_MAX, 1, INT_MIN),
    (BinOp::Add, Int, INT_MIN, INT_MIN, 0),
    (BinOp::Add, UInt, 3000000000, 2000000000, 705032704),
    (BinOp::Add, Long, INT_MAX, INT_MAX, -2),
    (BinOp::Add, ULongLong, ULONG_LONG_MAX, 1, 0),
    (BinOp::Sub, Int, INT_MIN, 1, INT_MAX),
    (BinOp::Sub, UInt, 0, 1, UINT_MAX),
    (BinOp::Sub, ULong, 5, 7, 4294967294),
    (BinOp::Sub, LongLong, LONG_LONG_MIN, 1, LONG_LONG_MAX),
    (BinOp::Mul, Int, -3, 5, -15),
    (BinOp::Mul, Int, 65536, 65536, 0),
    (BinOp::Mul, Int, 46341, 46341, -2147479015),
    (BinOp::Mul, UInt, UINT_MAX, UINT_MAX, 1),
    (BinOp::Mul, LongLong, LONG_LONG_MIN, -1, LONG_LONG_MIN),
    (BinOp::Mul, LongLong, LONG_LONG_MIN, LONG_LONG_MIN, 0),
    (BinOp::Mul, ULongLong, ULONG_LONG_MAX, ULONG_LONG_MAX, 1),
    (
        BinOp::Mul,
        ULongLong,
        ULONG_LONG_MAX,
        2,
        18446744073709551614,
    ),
];

#[test]
fn sums_and_products_wrap(rt: HostRuntime) {
    check_rows(&rt, SUMS.as_slice());
}

static QUOTIENTS: [Row; 14] = [
    (BinOp::Div, Int, -7, 2, -3),
    (BinOp::Rem, Int, -7, 2, -1),
    (BinOp::Div, Int, 7, -2, -3),
    (BinOp::Rem, Int, 7, -2, 1),
    (BinOp::Div, Int, -7, -2, 3),
    (BinOp::Rem, Int, -7, -2, -1),
    (BinOp::Div, Int, INT_MIN, -1, INT_MIN),
    (BinOp::Rem, Int, INT_MIN, -1, 0),
    (BinOp::Div, LongLong, LONG_LONG_MIN, -1, LONG_LONG_MIN),
    (BinOp::Rem, LongLong, LONG_LONG_MIN, -1, 0),
    (BinOp::Div, UInt, UINT_MAX, 2, 2147483647),
    (BinOp::Rem, UInt, UINT_MAX, 10, 5),
    (
        BinOp::Div,
        ULongLong,
        ULONG_LONG_MAX,
        10,
        1844674407370955161,
    ),
    (BinOp::Rem, ULongLong, ULONG_LONG_MAX, 10, 5),
];

#[test]
fn division_is_toward_zero(rt: HostRuntime) {
    check_rows(&rt, SUMS.as_slice());
}

static BY_ZERO: [(BinOp, Result<i128, DivideByZero>); 16] = [
    (BinOp::Mul, Ok(0)),
    (BinOp::Div, Err(DivideByZero)),
    (BinOp::Rem, Err(DivideByZero)),
    (BinOp::Add, Ok(-5)),
    (BinOp::Sub, Ok(-5)),
    (BinOp::Shl, Ok(-5)),
    (BinOp::Shr, Ok(-5)),
    (BinOp::Lt, Ok(1)),
    (BinOp::Gt, Ok(0)),
    (BinOp::Le, Ok(1)),
    (BinOp::Ge, Ok(0)),
    (BinOp::Eq, Ok(0)),
    (BinOp::Ne, Ok(1)),
    (BinOp::And, Ok(0)),
    (BinOp::Xor, Ok(-5)),
    (BinOp::Or, Ok(-5)),
];

#[test]
fn only_division_fails(rt: HostRuntime) {
    for (row, (op, want)) in BY_ZERO.iter().enumerate() {
        check_row(&rt, row, binary(*op, Int, -5, 0) == *want);
    }
}

static SHIFTED: [Row; 21] = [
    (BinOp::Shl, Int, 1, 31, INT_MIN),
    (BinOp::Shl, Int, 1, 32, 1),
    (BinOp::Shl, Int, 1, 33, 2),
    (BinOp::Shl, Int, 1, -1, INT_MIN),
    (BinOp::Shl, Int, 1, ULONG_LONG_MAX, INT_MIN),
    (BinOp::Shl, Int, 1, LONG_LONG_MIN, 1),
    (BinOp::Shl, Int, 3, 30, -1073741824),
    (BinOp::Shl, Int, -1, 1, -2),
    (BinOp::Shl, UInt, 3, 31, 2147483648),
    (BinOp::Shl, LongLong, 1, 32, 4294967296),
    (BinOp::Shl, LongLong, 1, 63, LONG_LONG_MIN),
    (BinOp::Shl, LongLong, 1, 65, 2),
    (
        BinOp::Shl,
        ULongLong,
        ULONG_LONG_MAX,
        -1,
        9223372036854775808,
    ),
    (BinOp::Shr, Int, -1, 1, -1),
    (BinOp::Shr, Int, -7, 1, -4),
    (BinOp::Shr, Int, INT_MIN, 31, -1),
    (BinOp::Shr, Int, INT_MIN, 32, INT_MIN),
    (BinOp::Shr, Int, INT_MIN, 33, -1073741824),
    (BinOp::Shr, UInt, 2147483648, -1, 1),
    (BinOp::Shr, LongLong, LONG_LONG_MIN, 62, -2),
    (BinOp::Shr, ULongLong, ULONG_LONG_MAX, 63, 1),
];

#[tactic(auto, using(css_num::proofs::Operands::shift_count))]
fn is_shifted(row: &Row) -> bool {
    let (op, t, a, b, want) = row;
    if !is_in_range(*a, *t) || !(is_in_range(*b, LongLong) || is_in_range(*b, ULongLong)) {
        return false;
    }
    let got = if *op == BinOp::Shl {
        binary(BinOp::Shl, *t, *a, *b)
    } else {
        binary(BinOp::Shr, *t, *a, *b)
    };
    got == Ok(*want)
}

#[test]
fn shifts_take_the_count_modulo_the_width(rt: HostRuntime) {
    for (row, each) in SHIFTED.iter().enumerate() {
        check_row(&rt, row, is_shifted(each));
    }
}

static COMPARED: [Row; 13] = [
    (BinOp::Lt, Int, -1, 0, 1),
    (BinOp::Lt, UInt, UINT_MAX, 0, 0),
    (BinOp::Lt, Int, 3, 3, 0),
    (BinOp::Gt, Int, -1, 0, 0),
    (BinOp::Gt, ULongLong, ULONG_LONG_MAX, 1, 1),
    (BinOp::Le, Int, 3, 3, 1),
    (BinOp::Le, LongLong, 4, 3, 0),
    (BinOp::Ge, Int, 3, 3, 1),
    (BinOp::Ge, Int, INT_MIN, INT_MAX, 0),
    (BinOp::Eq, Int, -1, -1, 1),
    (BinOp::Eq, LongLong, 4294967296, 0, 0),
    (BinOp::Ne, Int, 1, -1, 1),
    (BinOp::Ne, UInt, 7, 7, 0),
];

#[test]
fn comparisons_give_zero_or_one(rt: HostRuntime) {
    check_rows(&rt, SUMS.as_slice());
}

static BITWISE: [Row; 9] = [
    (BinOp::And, Int, -1, 255, 255),
    (BinOp::And, Int, -4, -6, -8),
    (BinOp::And, LongLong, -1, 4294967295, 4294967295),
    (BinOp::Xor, Int, -1, 1, -2),
    (BinOp::Xor, UInt, UINT_MAX, 65535, 4294901760),
    (BinOp::Xor, LongLong, LONG_LONG_MIN, -1, LONG_LONG_MAX),
    (BinOp::Or, Int, INT_MIN, 1, -2147483647),
    (BinOp::Or, Int, -4, 3, -1),
    (
        BinOp::Or,
        ULongLong,
        9223372036854775808,
        1,
        9223372036854775809,
    ),
];

#[test]
fn bitwise_operators(rt: HostRuntime) {
    check_rows(&rt, SUMS.as_slice());
}
