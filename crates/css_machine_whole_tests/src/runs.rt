//! Runs of small codes.
ghost use Rattle.std.specs.Prelude.{◌≡◌, [], IfOk};
ghost use Rattle.css_isa.specs.Code.{code_of};
ghost use Rattle.css_isa.specs.Steps.{Begin};
ghost use Rattle.css_isa.specs.Roles.{Straight, role_of};
ghost use Rattle.css_isa.specs.Soundness.{Fits};

use crate::codes::{alone, events, function, pair, task};
use crate::told::text_of;
use css_base::{Direction, Line, NoMemory};
use css_isa::{ArgShape, Code, Conversion, Mark, Op, Width};
use std::alloc::Global;
use std::process::Abort;
use std::test::Fail;

// The events of a run are these.
fn expect(
    rt: &impl Abort,
    alloc: Global,
    code: &Code,
    units: u64,
    answers: &[u64],
    told: &[&str],
) -> Result<(), Fail>
    requires { Fits (code_of code.now) (Begin 0 [] 1) }
{
    let found = events(alloc, code, units, answers)?;
    assert_eq!(rt; found.len(), told.len());
    for (event, text) in found.iter().zip(told) {
        let seen = text_of(alloc, event)?;
        assert_eq!(rt; seen.as_str(), *text);
    }
    Ok(())
}

// Adds 1 to 0 so often as a number says, by turns and jumps, and writes it.
fn counting(alloc: Global, most: i64) -> Result<Code, NoMemory>
    ensures { IfOk result (λ c. Fits (code_of c) (Begin 0 [] 1)) }
{
    let main = function(
        alloc,
        8,
        &[],
        Line::new(2),
        &[
            Op::Push(0),
            Op::Dup(0),
            Op::Push(most),
            Op::Lts,
            Op::Jumpz(9),
            Op::Turn,
            Op::Push(1),
            Op::Add,
            Op::Jump(1),
            Op::Out(Conversion::Wide),
            Op::Ret,
        ],
    )?;
    alone(alloc, main)
}

#[test]
fn turns(rt: HostRuntime) -> Result<(), Fail> {
    let code = counting(rt.alloc(), 3)?;
    expect(&rt, rt.alloc(), &code, 4, &[1, 0], &["out 3", "ended 1"])?;
    expect(&rt, rt.alloc(), &code, 3, &[1, 0], &["rule plain"])?;
    let code = counting(rt.alloc(), -3)?;
    expect(&rt, rt.alloc(), &code, 1, &[1, 0], &["out 0", "ended 1"])
}

// Stores a number by one instruction, loads it by another, and returns it.
fn stored(alloc: Global, number: i64, store: Op, load: Op) -> Result<Code, NoMemory>
    requires stores { role_of store ≡ Straight 2 2 1 }
    requires loads { role_of load ≡ Straight 1 1 1 }
    ensures { IfOk result (λ c. Fits (code_of c) (Begin 0 [] 1)) }
{
    let main = function(
        alloc,
        16,
        &[],
        Line::new(2),
        &[
            Op::Frame(8),
            Op::Push(number),
            store,
            Op::Drop,
            Op::Frame(8),
            load,
            Op::Ret,
        ],
    )?;
    alone(alloc, main)
}

// A number that is stored and loaded so is this one.
fn expect_stored(
    rt: &impl Abort,
    alloc: Global,
    number: i64,
    store: Op,
    load: Op,
    told: &str,
) -> Result<(), Fail>
    requires stores { role_of store ≡ Straight 2 2 1 }
    requires loads { role_of load ≡ Straight 1 1 1 }
{
    let code = stored(alloc, number, store, load)?;
    expect(rt, alloc, &code, 1, &[0], &[told])
}

#[test]
fn widths(rt: HostRuntime) -> Result<(), Fail> {
    let alloc = rt.alloc();
    expect_stored(&rt, alloc, 0x1ff, Op::Store8, Op::Load8u, "ended 255")?;
    expect_stored(&rt, alloc, 0x1ff, Op::Store8, Op::Load8s, "ended -1")?;
    expect_stored(
        &rt,
        alloc,
        0x1_8001,
        Op::Store16,
        Op::Load16u,
        "ended 32769",
    )?;
    expect_stored(
        &rt,
        alloc,
        0x1_8001,
        Op::Store16,
        Op::Load16s,
        "ended -32767",
    )?;
    expect_stored(
        &rt,
        alloc,
        0x1_8000_0002,
        Op::Store32,
        Op::Load32u,
        "ended 2147483650",
    )?;
    expect_stored(
        &rt,
        alloc,
        0x1_8000_0002,
        Op::Store32,
        Op::Load32s,
        "ended -2147483646",
    )?;
    expect_stored(&rt, alloc, -2, Op::Store64, Op::Load64, "ended -2")?;
    expect_stored(&rt, alloc, 0x0102_0304, Op::Store32, Op::Load8u, "ended 1")
}

// Writes a number, and returns what it is told.
fn writing(alloc: Global, conversion: Conversion, number: i64) -> Result<Code, NoMemory>
    ensures { IfOk result (λ c. Fits (code_of c) (Begin 0 [] 1)) }
{
    let main = function(
        alloc,
        0,
        &[],
        Line::new(2),
        &[Op::Push(number), Op::Out(conversion), Op::Ret],
    )?;
    alone(alloc, main)
}

#[test]
fn conversions(rt: HostRuntime) -> Result<(), Fail> {
    for (conversion, number, told) in [
        (Conversion::Char, 321, "out A"),
        (Conversion::Signed, -5, "out -5"),
        (Conversion::Unsigned, -5, "out 4294967291"),
        (Conversion::Hexadecimal, -5, "out fffffffb"),
        (Conversion::Wide, i64::MIN, "out -9223372036854775808"),
    ] {
        let code = writing(rt.alloc(), conversion, number)?;
        expect(&rt, rt.alloc(), &code, 1, &[9, 0], &[told, "ended 9"])?;
    }
    Ok(())
}

// Calls a function with 300 for a parameter of one byte, and with -2; it returns their sum.
fn calling(alloc: Global) -> Result<Code, NoMemory>
    ensures { IfOk result (λ c. Fits (code_of c) (Begin 0 [] 1)) }
{
    let main = function(
        alloc,
        8,
        &[],
        Line::new(2),
        &[Op::Push(300), Op::Push(-2), Op::Call(1), Op::Ret],
    )?;
    let callee = function(
        alloc,
        16,
        &[Width::W8, Width::W64],
        Line::new(3),
        &[
            Op::Frame(0),
            Op::Load8u,
            Op::Frame(8),
            Op::Load64,
            Op::Add,
            Op::Ret,
        ],
    )?;
    pair(alloc, main, callee)
}

#[test]
fn calls(rt: HostRuntime) -> Result<(), Fail> {
    let code = calling(rt.alloc())?;
    expect(&rt, rt.alloc(), &code, 2, &[0], &["ended 42"])?;
    expect(&rt, rt.alloc(), &code, 1, &[0], &["rule plain"])
}

// Comes to each mark, to a byte of the input and bytes of the heap, and calls a task with a dimension.
fn asking(alloc: Global) -> Result<Code, NoMemory>
    ensures { IfOk result (λ c. Fits (code_of c) (Begin 0 [] 1)) }
{
    let main = function(
        alloc,
        8,
        &[],
        Line::new(2),
        &[
            Op::Mark(Mark::Start),
            Op::Mark(Mark::Started),
            Op::Drop,
            Op::In,
            Op::Malloc,
            Op::Drop,
            Op::Frame(0),
            Op::Push(0x1_02ff),
            Op::Mark(Mark::InDimension),
            Op::Push(-3),
            Op::Mark(Mark::Outside),
            Op::Submit(1),
            Op::Drop,
            Op::Mark(Mark::InWait),
            Op::Frame(4),
            Op::Mark(Mark::Outside),
            Op::Mark(Mark::Wait),
            Op::Mark(Mark::Barrier),
            Op::Mark(Mark::Finish),
            Op::Push(7),
            Op::Ret,
        ],
    )?;
    let task = task(
        alloc,
        16,
        &[Width::W32, Width::W8],
        &[
            ArgShape::Window {
                direction: Direction::In,
                element: 4,
                dims: 1,
                strided: false,
            },
            ArgShape::Scalar,
        ],
        Line::new(3),
        &[Op::Push(0), Op::Ret],
    )?;
    pair(alloc, main, task)
}

#[test]
fn marks(rt: HostRuntime) -> Result<(), Fail> {
    let code = asking(rt.alloc())?;
    expect(
        &rt,
        rt.alloc(),
        &code,
        1,
        &[0, 1, 65, 0, 0, 0, 0, 0, 0],
        &[
            "start",
            "started",
            "in",
            "malloc 65",
            "submit 1 248 255 [18446744073709551613]",
            "wait 252",
            "barrier",
            "finish",
            "ended 7",
        ],
    )
}

// Loads outside of the memory, in the expressions of a wait.
fn waiting(alloc: Global) -> Result<Code, NoMemory>
    ensures { IfOk result (λ c. Fits (code_of c) (Begin 0 [] 1)) }
{
    let main = function(
        alloc,
        0,
        &[],
        Line::new(2),
        &[
            Op::Mark(Mark::InWait),
            Op::Push(1_000),
            Op::Load32s,
            Op::Mark(Mark::Outside),
            Op::Ret,
        ],
    )?;
    alone(alloc, main)
}

// Divides by 0 in a dimension.
fn measuring(alloc: Global) -> Result<Code, NoMemory>
    ensures { IfOk result (λ c. Fits (code_of c) (Begin 0 [] 1)) }
{
    let main = function(
        alloc,
        0,
        &[],
        Line::new(2),
        &[
            Op::Mark(Mark::InDimension),
            Op::Push(1),
            Op::Push(0),
            Op::Remu,
            Op::Mark(Mark::Outside),
            Op::Ret,
        ],
    )?;
    alone(alloc, main)
}

// Divides two numbers.
fn dividing(alloc: Global, a: i64, b: i64) -> Result<Code, NoMemory>
    ensures { IfOk result (λ c. Fits (code_of c) (Begin 0 [] 1)) }
{
    let main = function(
        alloc,
        0,
        &[],
        Line::new(2),
        &[Op::Push(a), Op::Push(b), Op::Divs, Op::Ret],
    )?;
    alone(alloc, main)
}

#[test]
fn faults(rt: HostRuntime) -> Result<(), Fail> {
    let code = waiting(rt.alloc())?;
    expect(&rt, rt.alloc(), &code, 1, &[0], &["OutsideMemory waiting"])?;
    let code = measuring(rt.alloc())?;
    expect(&rt, rt.alloc(), &code, 1, &[0], &["DivideByZero measuring"])?;
    let code = dividing(rt.alloc(), 1, 0)?;
    expect(&rt, rt.alloc(), &code, 1, &[0], &["DivideByZero plain"])?;
    let code = dividing(rt.alloc(), -7, 2)?;
    expect(&rt, rt.alloc(), &code, 1, &[0], &["ended -3"])
}
