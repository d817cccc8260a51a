//! What instructions make of numbers.
ghost use Rattle.std.specs.Prelude.{◌≡◌, IsTrue};
ghost use Rattle.css_vm.specs.Soundness.{takes, gives};
ghost use Rattle.css_vm.specs.Effects.{goes_on, no_functions};

use super::codes::{UNITS, binary, expect_number, expect_stop, unary};
use css_base::{FaultKind, Stop};
use css_vm::{Narrow, Op, ShiftWidth};
use std::alloc::Global;
use std::process::Abort;
use std::test::Fail;

fn expect_binary(
    rt: &impl Abort,
    alloc: Global,
    op: Op,
    rows: &[(i64, i64, i64)],
) -> Result<(), Fail>
    requires two { takes no_functions op ≡ 2 }
    requires one { gives no_functions op ≡ 1 }
    requires on { IsTrue (goes_on op) }
{
    for (a, b, number) in rows {
        expect_number(rt, alloc, &binary(alloc, op, *a, *b)?, *number, 4)?;
    }
    Ok(())
}

fn expect_unary(rt: &impl Abort, alloc: Global, op: Op, rows: &[(i64, i64)]) -> Result<(), Fail>
    requires takes_one { takes no_functions op ≡ 1 }
    requires gives_one { gives no_functions op ≡ 1 }
    requires on { IsTrue (goes_on op) }
{
    for (a, number) in rows {
        expect_number(rt, alloc, &unary(alloc, op, *a)?, *number, 4)?;
    }
    Ok(())
}

// Sums, differences and products modulo 2^64, and operators on bits.
#[test]
fn arithmetic(rt: HostRuntime) -> Result<(), Fail> {
    expect_binary(
        &rt,
        rt.alloc(),
        Op::Add,
        &[(1, 2, 3), (i64::MAX, 1, i64::MIN)],
    )?;
    expect_binary(
        &rt,
        rt.alloc(),
        Op::Sub,
        &[(5, 7, -2), (i64::MIN, 1, i64::MAX)],
    )?;
    expect_binary(
        &rt,
        rt.alloc(),
        Op::Mul,
        &[(-3, 5, -15), (0x1_0000_0001, 0x1_0000_0001, 0x2_0000_0001)],
    )?;
    expect_binary(&rt, rt.alloc(), Op::And, &[(12, 10, 8), (-1, 255, 255)])?;
    expect_binary(&rt, rt.alloc(), Op::Or, &[(12, 10, 14), (-1, 255, -1)])?;
    expect_binary(&rt, rt.alloc(), Op::Xor, &[(12, 10, 6), (-1, 5, -6)])?;
    expect_unary(
        &rt,
        rt.alloc(),
        Op::Neg,
        &[(5, -5), (0, 0), (i64::MIN, i64::MIN)],
    )?;
    expect_unary(&rt, rt.alloc(), Op::Not, &[(0, -1), (5, -6)])
}

// C99 6.5.5: the quotient is truncated toward zero, and a == a / b * b + a % b.
#[test]
fn division(rt: HostRuntime) -> Result<(), Fail> {
    expect_binary(
        &rt,
        rt.alloc(),
        Op::Divs,
        &[
            (7, 2, 3),
            (-7, 2, -3),
            (7, -2, -3),
            (-7, -2, 3),
            (i64::MIN, -1, i64::MIN),
        ],
    )?;
    expect_binary(
        &rt,
        rt.alloc(),
        Op::Rems,
        &[
            (7, 2, 1),
            (-7, 2, -1),
            (7, -2, 1),
            (-7, -2, -1),
            (i64::MIN, -1, 0),
        ],
    )?;
    let by_zero = Stop::Fault(FaultKind::DivideByZero);
    expect_stop(
        &rt,
        rt.alloc(),
        &binary(rt.alloc(), Op::Divs, 1, 0)?,
        UNITS,
        by_zero,
        3,
    )?;
    expect_stop(
        &rt,
        rt.alloc(),
        &binary(rt.alloc(), Op::Rems, 0, 0)?,
        UNITS,
        by_zero,
        3,
    )
}

// A count is taken modulo the width; `>>` of a negative number keeps the sign (C99 6.5.7).
#[test]
fn shifts(rt: HostRuntime) -> Result<(), Fail> {
    let half = 0x8000_0000;
    expect_binary(
        &rt,
        rt.alloc(),
        Op::Shl(ShiftWidth::W32),
        &[
            (1, 31, half),
            (1, 32, 1),
            (1, 33, 2),
            (1, -1, half),
            (-1, 1, -2),
        ],
    )?;
    expect_binary(
        &rt,
        rt.alloc(),
        Op::Shl(ShiftWidth::W64),
        &[
            (1, 32, 2 * half),
            (1, 63, i64::MIN),
            (1, 64, 1),
            (1, -1, i64::MIN),
        ],
    )?;
    expect_binary(
        &rt,
        rt.alloc(),
        Op::Shrs(ShiftWidth::W32),
        &[
            (7, 1, 3),
            (-7, 1, -4),
            (-half, 31, -1),
            (-8, 32, -8),
            (-8, 33, -4),
            (-half, -1, -1),
        ],
    )?;
    expect_binary(
        &rt,
        rt.alloc(),
        Op::Shrs(ShiftWidth::W64),
        &[
            (i64::MIN, 63, -1),
            (i64::MIN, 64, i64::MIN),
            (i64::MIN, -1, -1),
            (half, 31, 1),
        ],
    )
}

// C99 6.5.8 and 6.5.9: 1 where the comparison holds, else 0.
#[test]
fn comparisons(rt: HostRuntime) -> Result<(), Fail> {
    expect_binary(
        &rt,
        rt.alloc(),
        Op::Eq,
        &[(5, 5, 1), (5, 6, 0), (-1, -1, 1)],
    )?;
    expect_binary(&rt, rt.alloc(), Op::Ne, &[(5, 5, 0), (5, 6, 1), (-1, 1, 1)])?;
    expect_binary(
        &rt,
        rt.alloc(),
        Op::Lts,
        &[(-1, 0, 1), (0, -1, 0), (3, 3, 0), (i64::MIN, i64::MAX, 1)],
    )
}

// C99 6.3.1.3: modulo 2 to the bits of the type, and signed types wrap too.
#[test]
fn conversions(rt: HostRuntime) -> Result<(), Fail> {
    expect_unary(
        &rt,
        rt.alloc(),
        Op::Conv(Narrow::U8),
        &[(-1, 255), (256, 0), (511, 255)],
    )?;
    expect_unary(
        &rt,
        rt.alloc(),
        Op::Conv(Narrow::S8),
        &[(127, 127), (128, -128), (255, -1), (-129, 127)],
    )?;
    expect_unary(
        &rt,
        rt.alloc(),
        Op::Conv(Narrow::U16),
        &[(-1, 65_535), (65_536, 0)],
    )?;
    expect_unary(
        &rt,
        rt.alloc(),
        Op::Conv(Narrow::S16),
        &[(32_767, 32_767), (32_768, -32_768)],
    )?;
    expect_unary(
        &rt,
        rt.alloc(),
        Op::Conv(Narrow::U32),
        &[(-1, 0xffff_ffff), (0x1_0000_0000, 0)],
    )?;
    expect_unary(
        &rt,
        rt.alloc(),
        Op::Conv(Narrow::S32),
        &[
            (0x7fff_ffff, 0x7fff_ffff),
            (0x8000_0000, -0x8000_0000),
            (0xffff_ffff, -1),
        ],
    )
}
