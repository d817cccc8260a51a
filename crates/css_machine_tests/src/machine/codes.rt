//! Code of one function, and what it comes to.
ghost use Rattle.std.specs.Prelude.{◌≡◌, ◌≤◌, [], ◌∷◌, map, IfOk, IsTrue, None};
ghost use Rattle.css_vm.specs.Code.{routine, code_of};
ghost use Rattle.css_vm.specs.Spaces.{bytes_of};
ghost use Rattle.css_vm.specs.Machine.{Begin};
ghost use Rattle.css_vm.specs.Soundness.{Fits, takes, gives};
ghost use Rattle.css_vm.specs.Effects.{goes_on, no_functions};

use css_base::{FaultKind, Line, NoMemory, Stop};
use css_mem::MainMemory;
use css_vm::{Code, Event, Function, Instr, Machine, Op, Width};
use std::alloc::Global;
use std::process::Abort;
use std::test::Fail;

pub(super) const SIZE: u32 = 2_097_152;

// More units than any test takes but those of units.
pub(super) const UNITS: u64 = 1_000;

pub(super) const OUTSIDE: Stop = Stop::Fault(FaultKind::OutsideMemory);

pub(super) fn instr(op: Op, line: u32) -> Instr
    requires { 1 ≤ line }
    ensures { result ≡ record { op = op; line = line } }
{
    Instr {
        op,
        line: Line::new(line),
    }
}

// A function without parameters that is no task.
pub(super) fn plain(alloc: Global, frame: u32, body: Vec<Instr>) -> Function
    ensures { routine result ≡ record { frame = frame; parameters = []; task = None; body = body.items } }
{
    Function {
        frame,
        params: Vec::new(alloc),
        task: None,
        body,
    }
}

// Code of main alone.
pub(super) fn main_alone(alloc: Global, frame: u32, body: Vec<Instr>) -> Result<Code, NoMemory>
    ensures { IfOk result (λ c. code_of c ≡ record { functions = record { frame = frame; parameters = []; task = None; body = body.items } ∷ []; main = 0 }) }
{
    let functions = vec![in alloc; plain(alloc, frame, body)]?;
    Ok(Code { functions, main: 0 })
}

// A function that is no task.
pub(super) fn function(frame: u32, params: Vec<Width>, body: Vec<Instr>) -> Function
    ensures { routine result ≡ record { frame = frame; parameters = map bytes_of params.items; task = None; body = body.items } }
{
    Function {
        frame,
        params,
        task: None,
        body,
    }
}

// Code of main and one more function.
pub(super) fn two(alloc: Global, main: Function, other: Function) -> Result<Code, NoMemory>
    ensures { IfOk result (λ c. code_of c ≡ record { functions = routine main ∷ routine other ∷ []; main = 0 }) }
{
    let functions = vec![in alloc; main, other]?;
    Ok(Code { functions, main: 0 })
}

// Returns what an instruction makes of two numbers.
pub(super) fn binary(alloc: Global, op: Op, a: i64, b: i64) -> Result<Code, NoMemory>
    requires two { takes no_functions op ≡ 2 }
    requires one { gives no_functions op ≡ 1 }
    requires on { IsTrue (goes_on op) }
    ensures { IfOk result (λ c. Fits (code_of c) (Begin 0 [] 1)) }
{
    let body = vec![in alloc;
        instr(Op::Push(a), 2),
        instr(Op::Push(b), 2),
        instr(op, 3),
        instr(Op::Ret, 4),
    ]?;
    main_alone(alloc, 0, body)
}

// Returns what an instruction makes of a number.
pub(super) fn unary(alloc: Global, op: Op, a: i64) -> Result<Code, NoMemory>
    requires takes_one { takes no_functions op ≡ 1 }
    requires gives_one { gives no_functions op ≡ 1 }
    requires on { IsTrue (goes_on op) }
    ensures { IfOk result (λ c. Fits (code_of c) (Begin 0 [] 1)) }
{
    let body = vec![in alloc; instr(Op::Push(a), 2), instr(op, 3), instr(Op::Ret, 4)]?;
    main_alone(alloc, 0, body)
}

// The event that main comes to from its entry in line 1, in a new memory.
pub(super) fn event_of(alloc: Global, code: &Code, units: &mut u64) -> Result<Event, NoMemory>
    requires { Fits (code_of code.now) (Begin 0 [] 1) }
{
    let mut memory = MainMemory::new(alloc, SIZE, true)?;
    let mut machine = Machine::new(alloc, code, 0, &[], Line::new(1))?;
    machine.run_to_event(alloc, code, &mut memory, units)
}

// Main returns this number, in this line.
pub(super) fn expect_number(
    rt: &impl Abort,
    alloc: Global,
    code: &Code,
    number: i64,
    line: u32,
) -> Result<(), Fail>
    requires { Fits (code_of code.now) (Begin 0 [] 1) }
{
    let mut units = UNITS;
    let Event::Ended(cell, at) = event_of(alloc, code, &mut units)? else {
        panic!(rt; "it doesn't return");
    };
    assert_eq!(rt; (cell.cast_signed(), at.number()), (number, line));
    Ok(())
}

// With so many units main stops, in this line.
pub(super) fn expect_stop(
    rt: &impl Abort,
    alloc: Global,
    code: &Code,
    mut units: u64,
    stop: Stop,
    line: u32,
) -> Result<(), Fail>
    requires { Fits (code_of code.now) (Begin 0 [] 1) }
{
    let Event::Stopped(found, at) = event_of(alloc, code, &mut units)? else {
        panic!(rt; "it doesn't stop");
    };
    assert_eq!(rt; (found, at.number()), (stop, line));
    Ok(())
}
