//! Runs of main alone.
ghost use Rattle.std.specs.Prelude.{[], IfOk};
ghost use Rattle.css_vm.specs.Code.{code_of};
ghost use Rattle.css_vm.specs.Machine.{Begin};
ghost use Rattle.css_vm.specs.Soundness.{Fits};

use super::codes::{
    OUTSIDE, SIZE, UNITS, binary, event_of, expect_number, expect_stop, instr, main_alone, unary,
};
use css_base::{Line, NoMemory, Rule, Stop};
use css_mem::MainMemory;
use css_vm::{Code, Conversion, Event, Machine, Op};
use std::alloc::Global;
use std::process::Abort;
use std::test::Fail;

// Stores a number in a frame, and returns what is loaded from there and the 4 bytes before.
fn stored(alloc: Global, number: i64) -> Result<Code, NoMemory>
    ensures { IfOk result (λ c. Fits (code_of c) (Begin 0 [] 1)) }
{
    let body = vec![in alloc;
        instr(Op::Frame(4), 2),
        instr(Op::Push(number), 2),
        instr(Op::Store32, 2),
        instr(Op::Drop, 2),
        instr(Op::Frame(4), 3),
        instr(Op::Load32s, 3),
        instr(Op::Frame(0), 3),
        instr(Op::Load32s, 3),
        instr(Op::Sub, 3),
        instr(Op::Ret, 4),
    ]?;
    main_alone(alloc, 8, body)
}

// Stores a number in a frame, and returns what is loaded from there without sign.
fn stored_unsigned(alloc: Global, number: i64) -> Result<Code, NoMemory>
    ensures { IfOk result (λ c. Fits (code_of c) (Begin 0 [] 1)) }
{
    let body = vec![in alloc;
        instr(Op::Frame(4), 2),
        instr(Op::Push(number), 2),
        instr(Op::Store32, 2),
        instr(Op::Drop, 2),
        instr(Op::Frame(4), 3),
        instr(Op::Load32u, 3),
        instr(Op::Ret, 4),
    ]?;
    main_alone(alloc, 8, body)
}

// Returns 10 where a number is 0, and else 20.
fn branching(alloc: Global, number: i64) -> Result<Code, NoMemory>
    ensures { IfOk result (λ c. Fits (code_of c) (Begin 0 [] 1)) }
{
    let body = vec![in alloc;
        instr(Op::Push(number), 2),
        instr(Op::Jumpz(4), 2),
        instr(Op::Push(20), 3),
        instr(Op::Jump(5), 3),
        instr(Op::Push(10), 4),
        instr(Op::Ret, 5),
    ]?;
    main_alone(alloc, 0, body)
}

// Returns what `dup` and `swap` make of 5 and 7: 1 - (5 - (7 - 5)).
fn shuffled(alloc: Global) -> Result<Code, NoMemory>
    ensures { IfOk result (λ c. Fits (code_of c) (Begin 0 [] 1)) }
{
    let body = vec![in alloc;
        instr(Op::Push(5), 2),
        instr(Op::Push(7), 2),
        instr(Op::Dup(1), 2),
        instr(Op::Sub, 2),
        instr(Op::Sub, 2),
        instr(Op::Push(1), 3),
        instr(Op::Swap, 3),
        instr(Op::Sub, 3),
        instr(Op::Ret, 4),
    ]?;
    main_alone(alloc, 0, body)
}

// Writes a byte, and returns what the answer was.
fn writing(alloc: Global, frame: u32) -> Result<Code, NoMemory>
    ensures { IfOk result (λ c. Fits (code_of c) (Begin 0 [] 1)) }
{
    let body = vec![in alloc;
        instr(Op::Push(321), 7),
        instr(Op::Out(Conversion::Char), 7),
        instr(Op::Ret, 8),
    ]?;
    main_alone(alloc, frame, body)
}

// Counts from 0 up to a limit, with a turn for each number, and returns where it comes to.
fn counting(alloc: Global, limit: i64) -> Result<Code, NoMemory>
    ensures { IfOk result (λ c. Fits (code_of c) (Begin 0 [] 1)) }
{
    let body = vec![in alloc;
        instr(Op::Push(0), 2),
        instr(Op::Dup(0), 3),
        instr(Op::Push(limit), 3),
        instr(Op::Lts, 3),
        instr(Op::Jumpz(9), 3),
        instr(Op::Turn, 4),
        instr(Op::Push(1), 5),
        instr(Op::Add, 5),
        instr(Op::Jump(1), 5),
        instr(Op::Ret, 6),
    ]?;
    main_alone(alloc, 0, body)
}

// A cell of a frame keeps the low 32 bits, with their sign or without, and its neighbour stays 0.
#[test]
fn frames(rt: HostRuntime) -> Result<(), Fail> {
    for (number, signed, unsigned) in [
        (5, 5, 5),
        (-1, -1, 0xffff_ffff),
        (0x7fff_ffff, 0x7fff_ffff, 0x7fff_ffff),
        (0x8000_0000, -0x8000_0000, 0x8000_0000),
        (0x1_0000_0005, 5, 5),
    ] {
        expect_number(&rt, rt.alloc(), &stored(rt.alloc(), number)?, signed, 4)?;
        let code = stored_unsigned(rt.alloc(), number)?;
        expect_number(&rt, rt.alloc(), &code, unsigned, 4)?;
    }
    Ok(())
}

// Main's frame is empty here, so no byte is live.
#[test]
fn dead_addresses(rt: HostRuntime) -> Result<(), Fail> {
    for address in [0, -4, 4_096, 0x1_0000_0000] {
        let code = unary(rt.alloc(), Op::Load32s, address)?;
        expect_stop(&rt, rt.alloc(), &code, UNITS, OUTSIDE, 3)?;
    }
    let code = binary(rt.alloc(), Op::Store32, 0, 1)?;
    expect_stop(&rt, rt.alloc(), &code, UNITS, OUTSIDE, 3)
}

#[test]
fn places(rt: HostRuntime) -> Result<(), Fail> {
    expect_number(&rt, rt.alloc(), &branching(rt.alloc(), 0)?, 10, 5)?;
    expect_number(&rt, rt.alloc(), &branching(rt.alloc(), 1)?, 20, 5)?;
    expect_number(&rt, rt.alloc(), &branching(rt.alloc(), -1)?, 20, 5)?;
    expect_number(&rt, rt.alloc(), &shuffled(rt.alloc())?, -2, 4)
}

// The machine is owed the number of bytes, and its frame lies at the memory's end.
#[test]
fn output(rt: HostRuntime) -> Result<(), Fail> {
    let code = writing(rt.alloc(), 16)?;
    let mut memory = MainMemory::new(rt.alloc(), SIZE, true)?;
    let mut machine = Machine::new(rt.alloc(), &code, 0, &[], Line::new(1))?;
    let mut units = UNITS;
    let Event::Out(printed) = machine.run_to_event(rt.alloc(), &code, &mut memory, &mut units)?
    else {
        panic!(&rt; "it doesn't write");
    };
    assert_eq!(&rt; printed.as_slice(), b"A".as_slice());
    machine.answer(9);
    let Event::Ended(cell, line) = machine.run_to_event(rt.alloc(), &code, &mut memory, &mut units)?
    else {
        panic!(&rt; "it doesn't return");
    };
    assert_eq!(&rt; (cell, line.number()), (9, 8));
    assert_eq!(&rt; machine.base(), SIZE - 16);
    Ok(())
}

// The entry takes a unit, and so does each of three turns. Where none is left, the line is that of the entry or of the turn.
#[test]
fn units(rt: HostRuntime) -> Result<(), Fail> {
    let code = counting(rt.alloc(), 3)?;
    for (given, left) in [(9, 5), (4, 0)] {
        let mut units = given;
        let Event::Ended(cell, line) = event_of(rt.alloc(), &code, &mut units)? else {
            panic!(&rt; "it doesn't return");
        };
        assert_eq!(&rt; (cell, line.number(), units), (3, 6, left));
    }
    for (given, line) in [(3, 4), (1, 4), (0, 1)] {
        expect_stop(&rt, rt.alloc(), &code, given, Stop::Rule(Rule::Units), line)?;
    }
    Ok(())
}

// A frame may fill the stack, and no more; with no unit left that is still the rule that stops the run.
#[test]
fn stack_limit(rt: HostRuntime) -> Result<(), Fail> {
    let mut units = UNITS;
    let full = event_of(rt.alloc(), &writing(rt.alloc(), 1_064_960)?, &mut units)?;
    assert!(&rt; matches!(&full, Event::Out(_)));
    let code = writing(rt.alloc(), 1_064_961)?;
    for given in [UNITS, 0] {
        expect_stop(
            &rt,
            rt.alloc(),
            &code,
            given,
            Stop::Rule(Rule::MainStack),
            1,
        )?;
    }
    Ok(())
}
