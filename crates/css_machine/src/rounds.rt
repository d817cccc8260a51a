//! Rounds of steps: up to the next entry, return or event.
ghost use Rattle.std.specs.Prelude.{◌≡◌, ◌+◌, ◌^◌, ◌<◌, ℕ, true, IsTrue, IfOk, OnOk};
ghost use Rattle.css_isa.specs.Code.{code_of};
ghost use Rattle.css_isa.specs.Soundness.{Fits};
ghost use Rattle.css_machine.specs.Events.{IsStacked};
ghost use Rattle.css_machine.specs.States.{place_of, Submits};
ghost use Rattle.css_machine.specs.Steps.{is_pause, makes_event, IsBefore, IsPaused, Makes, Comes, ComesRound, ComesToEntry};

use crate::activations::Activations;
use crate::entry::enter;
use crate::event::{Event, MarkKind, Mode, Submitted};
use crate::operations::address;
use crate::printed::Printed;
use crate::submission::{arguments_of, dimensions};
use crate::turns::Pause;
use css_base::{Line, NoMemory};
use css_isa::{Code, Conversion, Instr, Mark, Op, Space};
use std::alloc::Global;

/// What a round of steps comes to.
pub(crate) enum Round {
    /// A function or a loop's body is entered, and a unit is taken.
    Enters,
    /// The machine has gone on where it doesn't by itself, or a function has returned to its caller.
    Returns,
    /// There is an event.
    Makes(Event),
}

/// Takes the steps up to the next event, and a unit at each entry.
pub(crate) fn run<S: Space>(
    activations: &mut Activations,
    alloc: Global,
    code: &Code,
    space: &mut S,
    units: &mut u64,
) -> Result<Event, NoMemory>
    requires fits { Fits (code_of code.now) activations.old }
    requires stacked { IsStacked (code_of code.now) (S.place space.old) activations.old }
    ensures { IfOk result (λ e. Comes S.reply S.learn S.place (code_of code.now) activations.old space.old units.old e activations.new space.new units.new) }
{
    loop {
        if let Some(event) = run_to_entry(activations, alloc, code, space, units)? {
            return Ok(event);
        }
    }
}

// Takes the steps up to the next entry of a function or of a loop's body, or to the event before it.
fn run_to_entry<S: Space>(
    activations: &mut Activations,
    alloc: Global,
    code: &Code,
    space: &mut S,
    units: &mut u64,
) -> Result<Option<Event>, NoMemory>
    requires fits { Fits (code_of code.now) activations.old }
    requires stacked { IsStacked (code_of code.now) (S.place space.old) activations.old }
    ensures { IfOk result (λ e. ComesToEntry S.reply S.learn S.place (code_of code.now) activations.old space.old units.old e activations.new space.new units.new) }
{
    loop {
        let round = run_round(activations, alloc, code, space, units)?;
        match round {
            Round::Enters => return Ok(None),
            Round::Returns => {}
            Round::Makes(event) => return Ok(Some(event)),
        }
    }
}

// Takes the steps up to the next entry, return or event.
#[inline]
fn run_round<S: Space>(
    activations: &mut Activations,
    alloc: Global,
    code: &Code,
    space: &mut S,
    units: &mut u64,
) -> Result<Round, NoMemory>
    requires fits { Fits (code_of code.now) activations.old }
    requires stacked { IsStacked (code_of code.now) (S.place space.old) activations.old }
    ensures { IfOk result (λ r. ComesRound S.reply S.learn S.place (code_of code.now) activations.old space.old units.old r activations.new space.new units.new) }
{
    let pause = activations.run_to_pause(code, space, units)?;
    match pause {
        Pause::Stopped(stop, line) => {
            let mode = activations.mode();
            Ok(Round::Makes(Event::Stopped(stop, mode, line)))
        }
        Pause::Entered => Ok(Round::Enters),
        Pause::At => settle(activations, alloc, code, space, units),
    }
}

// Does the instruction of a pause.
#[inline]
fn settle<S: Space>(
    activations: &mut Activations,
    alloc: Global,
    code: &Code,
    space: &mut S,
    units: &mut u64,
) -> Result<Round, NoMemory>
    requires fits { Fits (code_of code.now) activations.old }
    requires stacked { IsStacked (code_of code.now) (S.place space.old) activations.old }
    requires pauses { IsPaused (code_of code.now) activations.old }
    ensures { IfOk result (λ r. ComesRound S.reply S.learn S.place (code_of code.now) activations.old space.old units.old r activations.new space.new units.new) }
{
    let Instr { op, line } = activations.instr(code);
    match op {
        Op::Call(function) => call(activations, function, line, code, space, units),
        Op::Ret => Ok(leave(activations, line, code, space)),
        _ => {
            let event = make_event(activations, alloc, op, line, code)?;
            Ok(Round::Makes(event))
        }
    }
}

// Does an instruction that is an event.
fn make_event(
    activations: &mut Activations,
    alloc: Global,
    op: Op,
    line: Line,
    code: &Code,
) -> Result<Event, NoMemory>
    requires fits { Fits (code_of code.now) activations.old }
    requires before { IsBefore (code_of code.now) op line activations.old }
    requires makes { IsTrue (makes_event op) }
    requires place { place_of activations.old + 1 < 2 ^ 64 }
    ensures { IfOk result (λ e. Makes (code_of code.now) activations.old e activations.new) }
{
    match op {
        Op::Out(conversion) => write(activations, alloc, conversion, line, code),
        Op::In => read(activations, line, code),
        Op::Malloc => Ok(allot(activations, line, code)),
        Op::Mark(mark) => pass(activations, mark, line, code),
        Op::Submit(function) => {
            let call = submit(activations, alloc, function, line, code)?;
            Ok(Event::Submit(call))
        }
        _ => unreachable!(),
    }
}

// Writes the topmost cell, and leaves it for the answer.
fn write(
    activations: &mut Activations,
    alloc: Global,
    conversion: Conversion,
    line: Line,
    code: &Code,
) -> Result<Event, NoMemory>
    requires fits { Fits (code_of code.now) activations.old }
    requires before { IsBefore (code_of code.now) (Op.Out conversion) line activations.old }
    requires place { place_of activations.old + 1 < 2 ^ 64 }
    ensures { IfOk result (λ e. Makes (code_of code.now) activations.old e activations.new) }
{
    let printed = Printed::new(alloc, conversion, activations.top())?;
    activations.advance();
    Ok(Event::Out(printed, line))
}

// Takes a byte of the input, with a cell for the answer.
fn read(activations: &mut Activations, line: Line, code: &Code) -> Result<Event, NoMemory>
    requires fits { Fits (code_of code.now) activations.old }
    requires before { IsBefore (code_of code.now) Op.In line activations.old }
    requires place { place_of activations.old + 1 < 2 ^ 64 }
    ensures { IfOk result (λ e. Makes (code_of code.now) activations.old e activations.new) }
{
    activations.push(0)?;
    activations.advance();
    Ok(Event::In(line))
}

// Takes bytes of the heap, as many as the topmost cell says, and leaves that for the answer.
fn allot(activations: &mut Activations, line: Line, code: &Code) -> Event
    requires fits { Fits (code_of code.now) activations.old }
    requires before { IsBefore (code_of code.now) Op.Malloc line activations.old }
    requires place { place_of activations.old + 1 < 2 ^ 64 }
    ensures { Makes (code_of code.now) activations.old result activations.new }
{
    let size = address(activations.top());
    activations.advance();
    Event::Malloc(size, line)
}

// Goes behind a mark, with a cell for the answer where it asks.
fn pass(
    activations: &mut Activations,
    mark: Mark,
    line: Line,
    code: &Code,
) -> Result<Event, NoMemory>
    requires fits { Fits (code_of code.now) activations.old }
    requires before { IsBefore (code_of code.now) (Op.Mark mark) line activations.old }
    requires pauses { is_pause (Op.Mark mark) ≡ true }
    requires place { place_of activations.old + 1 < 2 ^ 64 }
    ensures { IfOk result (λ e. Makes (code_of code.now) activations.old e activations.new) }
{
    match mark {
        Mark::Start => {
            activations.advance();
            Ok(Event::Mark(MarkKind::Start, line))
        }
        Mark::Finish => {
            activations.advance();
            Ok(Event::Mark(MarkKind::Finish, line))
        }
        Mark::Barrier => {
            activations.advance();
            Ok(Event::Mark(MarkKind::Barrier, line))
        }
        Mark::Wait => {
            let base = address(activations.top());
            activations.drop_topmost(1);
            activations.advance();
            Ok(Event::Mark(MarkKind::Wait(base), line))
        }
        Mark::Started => {
            activations.push(0)?;
            activations.advance();
            Ok(Event::Mark(MarkKind::Started, line))
        }
        _ => unreachable!(),
    }
}

// Takes a task's dimensions and arguments from the stack, and leaves a cell for the answer.
fn submit(
    activations: &mut Activations,
    alloc: Global,
    function: u32,
    line: Line,
    code: &Code,
) -> Result<Submitted, NoMemory>
    requires fits { Fits (code_of code.now) activations.old }
    requires before { IsBefore (code_of code.now) (Op.Submit function) line activations.old }
    requires place { place_of activations.old + 1 < 2 ^ 64 }
    ensures { IfOk result (λ s. (s.function ≡ function) × Submits (code_of code.now) activations.old line s activations.new) }
{
    let task = code.function(function);
    let Some(shape) = &task.task else {
        unreachable!()
    };
    let Some(count) = dimensions(shape) else {
        return Err(NoMemory);
    };
    let dims = Vec::from_slice(alloc, activations.topmost(count))?;
    activations.drop_topmost(count);
    let params = task.params.as_slice();
    let arguments = arguments_of(alloc, params, activations.topmost(params.len()))?;
    activations.drop_topmost(params.len());
    activations.push(0)?;
    activations.advance();
    Ok(Submitted {
        function,
        arguments,
        dims,
        line,
    })
}

// Calls a function with the topmost cells as its arguments.
fn call<S: Space>(
    activations: &mut Activations,
    function: u32,
    line: Line,
    code: &Code,
    space: &mut S,
    units: &mut u64,
) -> Result<Round, NoMemory>
    requires fits { Fits (code_of code.now) activations.old }
    requires stacked { IsStacked (code_of code.now) (S.place space.old) activations.old }
    requires before { IsBefore (code_of code.now) (Op.Call function) line activations.old }
    requires place { place_of activations.old + 1 < 2 ^ 64 }
    ensures { IfOk result (λ r. ComesRound S.reply S.learn S.place (code_of code.now) activations.old space.old units.old r activations.new space.new units.new) }
{
    let callee = code.function(function);
    let arity = callee.params.as_slice().len();
    match enter(callee, activations.topmost(arity), space, units) {
        Ok(base) => {
            activations.drop_topmost(arity);
            activations.begin(function, base)?;
            Ok(Round::Enters)
        }
        Err(stop) => Ok(Round::Makes(Event::Stopped(stop, Mode::Plain, line))),
    }
}

// Returns with the topmost cell: to the nearest caller, or from the first function.
fn leave<S: Space>(activations: &mut Activations, line: Line, code: &Code, space: &mut S) -> Round
    requires fits { Fits (code_of code.now) activations.old }
    requires stacked { IsStacked (code_of code.now) (S.place space.old) activations.old }
    requires before { IsBefore (code_of code.now) Op.Ret line activations.old }
    ensures { (units : ℕ) → ComesRound S.reply S.learn S.place (code_of code.now) activations.old space.old units result activations.new space.new units }
{
    let cell = activations.top();
    if activations.is_first() {
        return Round::Makes(Event::Ended(cell, line));
    }
    let frame = code.function(activations.function()).frame;
    if let Err(stop) = space.pop_frame(frame) {
        return Round::Makes(Event::Stopped(stop, Mode::Plain, line));
    }
    activations.end(cell);
    Round::Returns
}
