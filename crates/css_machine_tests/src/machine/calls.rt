//! Calls of functions.
ghost use Rattle.std.specs.Prelude.{[], IfOk};
ghost use Rattle.css_vm.specs.Code.{code_of};
ghost use Rattle.css_vm.specs.Machine.{Begin};
ghost use Rattle.css_vm.specs.Soundness.{Fits};

use super::codes::{OUTSIDE, SIZE, UNITS, expect_number, expect_stop, function, instr, plain, two};
use css_base::{NoMemory, Rule, Stop};
use css_vm::{Code, Op, Width};
use std::alloc::Global;
use std::process::Abort;
use std::test::Fail;

// Calls a function with two numbers, which returns 4 bytes of its frame.
fn passing(
    alloc: Global,
    widths: (Width, Width),
    numbers: (i64, i64),
    offset: u32,
) -> Result<Code, NoMemory>
    ensures { IfOk result (λ c. Fits (code_of c) (Begin 0 [] 1)) }
{
    let main = vec![in alloc;
        instr(Op::Push(numbers.0), 2),
        instr(Op::Push(numbers.1), 2),
        instr(Op::Call(1), 2),
        instr(Op::Ret, 3),
    ]?;
    let callee = vec![in alloc;
        instr(Op::Frame(offset), 6),
        instr(Op::Load32u, 6),
        instr(Op::Ret, 7),
    ]?;
    let params = vec![in alloc; widths.0, widths.1]?;
    two(alloc, plain(alloc, 0, main), function(16, params, callee))
}

// Calls a function twice, which returns what it finds in its frame, and stores its argument there.
fn keeping(alloc: Global) -> Result<Code, NoMemory>
    ensures { IfOk result (λ c. Fits (code_of c) (Begin 0 [] 1)) }
{
    let main = vec![in alloc;
        instr(Op::Push(7), 2),
        instr(Op::Call(1), 2),
        instr(Op::Drop, 2),
        instr(Op::Push(9), 3),
        instr(Op::Call(1), 3),
        instr(Op::Ret, 4),
    ]?;
    let callee = vec![in alloc;
        instr(Op::Frame(8), 6),
        instr(Op::Load32u, 6),
        instr(Op::Frame(8), 7),
        instr(Op::Frame(0), 7),
        instr(Op::Load32u, 7),
        instr(Op::Store32, 7),
        instr(Op::Drop, 7),
        instr(Op::Ret, 8),
    ]?;
    let params = vec![in alloc; Width::W32]?;
    two(alloc, plain(alloc, 0, main), function(16, params, callee))
}

// Stores 9 in main's frame of 8 bytes, and calls a function with an address so far from there, which returns what it loads.
fn lending(alloc: Global, distance: i64) -> Result<Code, NoMemory>
    ensures { IfOk result (λ c. Fits (code_of c) (Begin 0 [] 1)) }
{
    let main = vec![in alloc;
        instr(Op::Frame(0), 2),
        instr(Op::Push(9), 2),
        instr(Op::Store32, 2),
        instr(Op::Drop, 2),
        instr(Op::Frame(0), 3),
        instr(Op::Push(distance), 3),
        instr(Op::Add, 3),
        instr(Op::Call(1), 3),
        instr(Op::Ret, 4),
    ]?;
    let callee = vec![in alloc;
        instr(Op::Frame(0), 6),
        instr(Op::Load32u, 6),
        instr(Op::Load32u, 7),
        instr(Op::Ret, 8),
    ]?;
    let params = vec![in alloc; Width::W32]?;
    two(alloc, plain(alloc, 8, main), function(8, params, callee))
}

// Loads from the frame of a function that has returned.
fn dangling(alloc: Global) -> Result<Code, NoMemory>
    ensures { IfOk result (λ c. Fits (code_of c) (Begin 0 [] 1)) }
{
    let main = vec![in alloc;
        instr(Op::Call(1), 2),
        instr(Op::Load32u, 3),
        instr(Op::Ret, 4),
    ]?;
    let callee = vec![in alloc; instr(Op::Frame(0), 6), instr(Op::Ret, 7)]?;
    two(alloc, plain(alloc, 8, main), plain(alloc, 8, callee))
}

// Main, with a frame of 16 bytes, calls a function with such a frame.
fn calling(alloc: Global, frame: u32) -> Result<Code, NoMemory>
    ensures { IfOk result (λ c. Fits (code_of c) (Begin 0 [] 1)) }
{
    let main = vec![in alloc; instr(Op::Call(1), 7), instr(Op::Ret, 8)]?;
    let callee = vec![in alloc; instr(Op::Push(5), 3), instr(Op::Ret, 4)]?;
    two(alloc, plain(alloc, 16, main), plain(alloc, frame, callee))
}

// A function calls itself for ever.
fn recursive(alloc: Global) -> Result<Code, NoMemory>
    ensures { IfOk result (λ c. Fits (code_of c) (Begin 0 [] 1)) }
{
    let main = vec![in alloc; instr(Op::Call(1), 2), instr(Op::Ret, 3)]?;
    let callee = vec![in alloc; instr(Op::Call(1), 6), instr(Op::Ret, 7)]?;
    two(alloc, plain(alloc, 0, main), plain(alloc, 0, callee))
}

// The first argument is stored at the frame's front, with the low bytes that its parameter has, and the second 8 bytes behind it.
#[test]
fn arguments(rt: HostRuntime) -> Result<(), Fail> {
    for (widths, numbers, offset, loaded) in [
        ((Width::W32, Width::W32), (5, 7), 0, 5),
        ((Width::W32, Width::W32), (5, 7), 4, 0),
        ((Width::W32, Width::W32), (5, 7), 8, 7),
        ((Width::W32, Width::W8), (-1, 0x1_02ff), 0, 0xffff_ffff),
        ((Width::W32, Width::W8), (-1, 0x1_02ff), 8, 0xff00_0000),
        ((Width::W16, Width::W32), (0x1_2345, 7), 0, 0x2345_0000),
        (
            (Width::W64, Width::W64),
            (0x0102_0304_0506_0708, 7),
            0,
            0x0102_0304,
        ),
        (
            (Width::W64, Width::W64),
            (0x0102_0304_0506_0708, 7),
            4,
            0x0506_0708,
        ),
        ((Width::W64, Width::W64), (5, 7), 12, 7),
    ] {
        let code = passing(rt.alloc(), widths, numbers, offset)?;
        expect_number(&rt, rt.alloc(), &code, loaded, 3)?;
    }
    Ok(())
}

// A frame is zeroed at each entry.
#[test]
fn fresh_frames(rt: HostRuntime) -> Result<(), Fail> {
    expect_number(&rt, rt.alloc(), &keeping(rt.alloc())?, 0, 4)
}

// The callee's frame stands directly below main's, which ends where the memory does. What it may not load stops it in its own line.
#[test]
fn callers_frames(rt: HostRuntime) -> Result<(), Fail> {
    for (distance, loaded) in [(0, 9), (4, 0), (-8, i64::from(SIZE - 16)), (-4, 0)] {
        let code = lending(rt.alloc(), distance)?;
        expect_number(&rt, rt.alloc(), &code, loaded, 4)?;
    }
    for distance in [5, 8, -9, -12] {
        let code = lending(rt.alloc(), distance)?;
        expect_stop(&rt, rt.alloc(), &code, UNITS, OUTSIDE, 7)?;
    }
    expect_stop(&rt, rt.alloc(), &dangling(rt.alloc())?, UNITS, OUTSIDE, 3)
}

// A call stops in its own line: by the rule on the stack where the frame has no room, and else by the rule on units where none is
// left.
#[test]
fn refused_calls(rt: HostRuntime) -> Result<(), Fail> {
    let fits = calling(rt.alloc(), 1_064_944)?;
    let passes = calling(rt.alloc(), 1_064_945)?;
    expect_number(&rt, rt.alloc(), &fits, 5, 8)?;
    expect_stop(&rt, rt.alloc(), &fits, 1, Stop::Rule(Rule::Units), 7)?;
    for given in [UNITS, 1] {
        expect_stop(
            &rt,
            rt.alloc(),
            &passes,
            given,
            Stop::Rule(Rule::MainStack),
            7,
        )?;
    }
    Ok(())
}

// Main and 33,791 calls may be open.
#[test]
fn open_calls(rt: HostRuntime) -> Result<(), Fail> {
    let code = recursive(rt.alloc())?;
    for (given, rule) in [
        (33_791, Rule::Units),
        (33_792, Rule::MainStack),
        (50_000, Rule::MainStack),
    ] {
        expect_stop(&rt, rt.alloc(), &code, given, Stop::Rule(rule), 6)?;
    }
    Ok(())
}
