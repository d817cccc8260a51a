//! Calls of tasks, and marks.
ghost use Rattle.std.specs.Prelude.{[], IfOk};
ghost use Rattle.css_vm.specs.Code.{code_of};
ghost use Rattle.css_vm.specs.Machine.{Begin};
ghost use Rattle.css_vm.specs.Soundness.{Fits};

use super::codes::{SIZE, UNITS, instr, plain, two};
use css_base::{Direction, Line, NoMemory};
use css_mem::MainMemory;
use css_vm::{ArgShape, Code, Event, Function, Machine, MarkKind, Op, Submitted, TaskShape, Width};
use std::alloc::Global;
use std::process::Abort;
use std::test::Fail;

// Starts, asks whether tasks are made, and calls a task with an address, a number and a dimension. Returns the sum of both answers.
fn submitting(alloc: Global) -> Result<Code, NoMemory>
    ensures { IfOk result (λ c. Fits (code_of c) (Begin 0 [] 1)) }
{
    let main = vec![in alloc;
        instr(Op::Mark(MarkKind::Start), 2),
        instr(Op::Mark(MarkKind::Started), 3),
        instr(Op::Frame(0), 3),
        instr(Op::Push(0x1_02ff), 3),
        instr(Op::Push(-3), 3),
        instr(Op::Submit(1), 3),
        instr(Op::Add, 4),
        instr(Op::Ret, 5),
    ]?;
    let body = vec![in alloc; instr(Op::Push(0), 8), instr(Op::Ret, 8)]?;
    let args = vec![in alloc;
        ArgShape::Window {
            direction: Direction::In,
            element: 4,
            dims: 1,
            strided: false,
        },
        ArgShape::Scalar,
    ]?;
    let task = Function {
        frame: 16,
        params: vec![in alloc; Width::W32, Width::W8]?,
        task: Some(TaskShape { high: false, args }),
        body,
    };
    two(alloc, plain(alloc, 8, main), task)
}

// A mark tells its line, and a task's call its arguments, each with the low bits that its parameter has, and its dimensions as they
// are.
#[test]
fn submitted(rt: HostRuntime) -> Result<(), Fail> {
    let code = submitting(rt.alloc())?;
    let mut memory = MainMemory::new(rt.alloc(), SIZE, true)?;
    let mut machine = Machine::new(rt.alloc(), &code, 0, &[], Line::new(1))?;
    let mut units = UNITS;
    let Event::Mark(kind, line) = machine.run_to_event(rt.alloc(), &code, &mut memory, &mut units)?
    else {
        panic!(&rt; "it comes to no mark");
    };
    let MarkKind::Start = kind else {
        panic!(&rt; "it isn't a start");
    };
    assert_eq!(&rt; line.number(), 2);
    machine.answer(0);
    let Event::Mark(kind, line) = machine.run_to_event(rt.alloc(), &code, &mut memory, &mut units)?
    else {
        panic!(&rt; "it comes to no mark");
    };
    let MarkKind::Started = kind else {
        panic!(&rt; "it doesn't ask whether tasks are made");
    };
    assert_eq!(&rt; line.number(), 3);
    machine.answer(1);
    let Event::Submit(call) = machine.run_to_event(rt.alloc(), &code, &mut memory, &mut units)?
    else {
        panic!(&rt; "it calls no task");
    };
    let Submitted {
        function,
        arguments,
        dims,
        line,
    } = call;
    assert_eq!(&rt; (function, line.number()), (1, 3));
    assert_eq!(&rt;
        arguments.as_slice(),
        [u64::from(SIZE - 8), 0xff].as_slice()
    );
    assert_eq!(&rt; dims.as_slice(), [(-3i64).cast_unsigned()].as_slice());
    machine.answer(0);
    let Event::Ended(cell, line) = machine.run_to_event(rt.alloc(), &code, &mut memory, &mut units)?
    else {
        panic!(&rt; "it doesn't return");
    };
    assert_eq!(&rt; (cell, line.number()), (1, 5));
    Ok(())
}
